// Two rooms compared strip by strip (change request 1): which strips differ, in how many pixels and in which planes. Each strip of each room is
// decoded once, and each plane's block is found once.
#![tactic(auto)]

pub mod count;
pub mod pair;
pub mod places;
pub mod planes;
pub mod strips;

ghost use Rattle.std.specs.Prelude.{◌≡◌, length};
ghost use Rattle.compare.specs.Compare.{rooms, outcome_of, compared_of, answer_of, list_after};
ghost use Rattle.compare.specs.Pair.{rooms_of};
ghost use Rattle.compare.specs.Tables.{Tested};

use crate::pair::Pair;
use crate::places::{count_places, put_places};
use crate::planes::mark_planes;
use crate::strips::count_pixels;
use refusal::{Reason, Refusal};
use room::Room;
use room::test::{nothing_lent, test_room};

// The list of two rooms: 4 where it has too few places.
fn list_differences(pair: Pair<'_>, list: &mut [u8]) -> Result<usize, Refusal>
    ensures answer { result ≡ answer_of (outcome_of (rooms_of pair.entry) (length list.old)) }
    ensures list_after { list.new ≡ list_after (outcome_of (rooms_of pair.entry) (length list.old)) list.old }
{
    let mut counts = [0u32; 128];
    let mut marks = [0u8; 128];
    count_pixels(pair, &mut counts);
    mark_planes(pair, &mut marks);
    let n = pair.ra.width / 8;
    let count = count_places(&counts, &marks, n);
    if list.len() / 8 < count {
        return Err(Reason::BufferShort.into());
    }
    put_places(&counts, &marks, n, list);
    Ok(count)
}

// Both rooms pass their tests: 16 where their sizes differ.
fn compare_tested(a: &[u8], ra: Room, b: &[u8], rb: Room, list: &mut [u8]) -> Result<usize, Refusal>
    requires { Tested a.now ra × Tested b.now rb }
    ensures answer { result ≡ answer_of (outcome_of (rooms a.now ra b.now rb) (length list.old)) }
    ensures list_after { list.new
        ≡ list_after (outcome_of (rooms a.now ra b.now rb) (length list.old)) list.old }
{
    if ra.width != rb.width || ra.height != rb.height {
        return Err(Reason::SizesDiffer.into());
    }
    list_differences(Pair { a, ra, b, rb }, list)
}

// Compares two rooms, and answers how many places of the list were filled: A's refusals, then B's, then 16 and 4.
pub fn compare(a: &[u8], b: &[u8], list: &mut [u8]) -> Result<usize, Refusal>
    ensures answer { result ≡ answer_of (compared_of a.now b.now (length list.old)) }
    ensures list_after { list.new
        ≡ list_after (compared_of a.now b.now (length list.old)) list.old }
{
    let ra = test_room(a, nothing_lent())?;
    let rb = test_room(b, nothing_lent())?;
    compare_tested(a, ra, b, rb, list)
}
