// The row of one object.
ghost use Rattle.std.specs.Prelude.{◌≡◌, ◌+◌, ◌≤◌, length};
ghost use Rattle.std.proofs.lemmas.List.Edits.{sets};
ghost use Rattle.objects.specs.Object.{cdhd_in};
ghost use Rattle.object_list.specs.List.{header_part, row_with};

use number::buffer::{copy, put_four, put_two};
use number::{put_le16, put_le32};
use objects::name::part_in;
use objects::object::{cdhd_in, header_bytes};

// The header of the object in the OBCD [b, z).
fn header_part(room: &[u8], b: usize, z: usize) -> [u8; 16]
    requires { (b + 8 ≤ z) × (z ≤ length room.now) }
    ensures { result ≡ header_part room.now (cdhd_in room.now b z) }
{
    match cdhd_in(room, b, z) {
        Ok(p) => header_bytes(room, p),
        Err(_) => [0; 16],
    }
}

// The row of that object, with the states that can be drawn, from `at` on.
pub fn put_row(room: &[u8], b: usize, z: usize, states: usize, rows: &mut [u8], at: usize)
    requires { (b + 8 ≤ z) × (z ≤ length room.now) × (at + 32 ≤ length rows.old) × (at ≤ 4096) }
    ensures { rows.new ≡ sets rows.old at (row_with room.now (Some (b, z)) states) }
{
    let header = header_part(room, b, z);
    let name = part_in(room, b, z);
    copy(&header, 0, 16, rows, at);
    put_le32(rows, at + 16, name.start);
    put_le32(rows, at + 20, name.count);
    put_le16(rows, at + 24, states);
    put_two(rows, at + 26, 0, 0);
    put_four(rows, at + 28, 0, 0, 0, 0);
}
