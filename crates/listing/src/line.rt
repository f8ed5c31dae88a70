// The lines of a listing, put into a lent buffer from `at` on; each function answers where its text ends.
ghost use Rattle.std.specs.Prelude.{◌+◌, ◌≤◌, length};
ghost use Rattle.listing.specs.Listing.{box_part, walk_part, line_in, object_lines};
ghost use Rattle.listing.specs.Listing.{room_line, object_line, refused_line};
ghost use Rattle.objects.specs.Object.{object_block};
ghost use Rattle.listing.specs.Put.{Put};

use crate::put::{number, signed, text};
use objects::Cdhd;
use objects::object::{cdhd_in, object_block, read_cdhd};
use room::Room;

// The line of a room.
pub fn room_line(out: &mut [u8], at: usize, r: Room) -> usize
    requires { at + length (room_line r) ≤ length out.old }
    ensures { Put (room_line r) out.old out.new at result }
{
    let width = number(out, at, b"room ", r.width);
    let height = number(out, width, b" ", r.height);
    let planes = number(out, height, b" planes ", r.planes);
    let objects = number(out, planes, b" objects ", r.objects);
    text(out, objects, b"\n")
}

// The box of an object, in pixels.
fn box_part(out: &mut [u8], at: usize, h: Cdhd) -> usize
    requires text_fits { at + length (box_part h) ≤ length out.old }
    requires box_of_bytes { (h.x ≤ 255) × (h.y ≤ 255) × (h.width ≤ 255) × (h.height ≤ 255) }
    ensures { Put (box_part h) out.old out.new at result }
{
    let x = number(out, at, b" box ", h.x * 8);
    let y = number(out, x, b" ", h.y * 8);
    let width = number(out, y, b" ", h.width * 8);
    number(out, width, b" ", h.height * 8)
}

// The walk point of an object.
fn walk_part(out: &mut [u8], at: usize, h: Cdhd) -> usize
    requires { at + length (walk_part h) ≤ length out.old }
    ensures { Put (walk_part h) out.old out.new at result }
{
    let x = signed(out, at, b" walk ", h.walkx);
    signed(out, x, b" ", h.walky)
}

// The line of object k, whose CDHD says h.
fn object_line(out: &mut [u8], at: usize, k: usize, h: Cdhd) -> usize
    requires text_fits { at + length (object_line k h) ≤ length out.old }
    requires box_of_bytes { (h.x ≤ 255) × (h.y ≤ 255) × (h.width ≤ 255) × (h.height ≤ 255) }
    ensures { Put (object_line k h) out.old out.new at result }
{
    let object = number(out, at, b"object ", k);
    let id = number(out, object, b" id ", h.id);
    let place = box_part(out, id, h);
    let walk = walk_part(out, place, h);
    text(out, walk, b"\n")
}

// The line of object k of the room.
fn object(room: &[u8], k: usize, out: &mut [u8], at: usize) -> usize
    requires { at + length (line_in room.now k (object_block room.now k)) ≤ length out.old }
    ensures { Put (line_in room.now k (object_block room.now k)) out.old out.new at result }
{
    let Some((b, z)) = object_block(room, k) else {
        return at;
    };
    let Ok(p) = cdhd_in(room, b, z) else {
        return at;
    };
    object_line(out, at, k, read_cdhd(room, p))
}

// The lines of objects 1 to `count`.
pub fn object_lines(room: &[u8], count: usize, out: &mut [u8], at: usize) -> usize
    requires { at + length (object_lines room.now count) ≤ length out.old }
    ensures { Put (object_lines room.now count) out.old out.new at result }
{
    let mut end = at;
    for k in 0..count {
        end = object(room, k + 1, out, end);
    }
    end
}

// The line of a refusal.
pub fn refused_line(out: &mut [u8], at: usize, n: u8) -> usize
    requires { at + length (refused_line n) ≤ length out.old }
    ensures { Put (refused_line n) out.old out.new at result }
{
    let end = number(out, at, b"refused ", n as usize);
    text(out, end, b"\n")
}
