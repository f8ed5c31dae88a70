// The listing of a room as text in a lent buffer: a line for the room, and one for each object in OBCD order; or `refused N` (document 01,
// "Worked rows", the whole listing of a room).
#![tactic(auto)]

pub mod line;
pub mod put;

ghost use Rattle.std.specs.Prelude.{◌≡◌, ◌≤◌, length, take};
ghost use Rattle.listing.specs.Listing.{listing_of, refused_line, written_count, written_over};

use crate::line::{object_lines, refused_line, room_line};
use room::test::{nothing_lent, test_room};

// The size that a buffer for a listing needs: every listing fits.
pub const SIZE: usize = 8192;

// A buffer of that size.
pub fn buffer() -> [u8; 8192]
    ensures { 8192 ≡ length result }
{
    [0; 8192]
}

// The whole listing of a room, at the front of `out`: how many bytes it has. A buffer shorter than SIZE gets none, and the answer is 0.
pub fn list(room: &[u8], out: &mut [u8]) -> usize
    ensures count_fits { (result ≤ length out.new) × (result ≡ length (take result out.new)) }
    ensures count { result ≡ written_count (listing_of room.now) out.old }
    ensures text_after { out.new ≡ written_over (listing_of room.now) out.old }
{
    if out.len() < SIZE {
        return 0;
    }
    match test_room(room, nothing_lent()) {
        Ok(r) => {
            let at = room_line(out, 0, r);
            object_lines(room, r.objects, out, at)
        }
        Err(refusal) => refused_line(out, 0, refusal.number()),
    }
}

// The line of the refusal `number`, with the same answer.
pub fn refused(number: u8, out: &mut [u8]) -> usize
    ensures count_fits { (result ≤ length out.new) × (result ≡ length (take result out.new)) }
    ensures count { result ≡ written_count (refused_line number) out.old }
    ensures text_after { out.new ≡ written_over (refused_line number) out.old }
{
    if out.len() < SIZE {
        return 0;
    }
    refused_line(out, 0, number)
}
