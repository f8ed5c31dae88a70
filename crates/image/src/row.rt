// Rows of the table of objects: 8 numbers for each, those of object o from 8 * o on.
ghost use Rattle.std.specs.Prelude.{◌≡◌, ◌+◌, ◌*◌, ◌≤◌, ◌<◌, length, get_or};
ghost use Rattle.number.specs.Number.{le16};
ghost use Rattle.image.specs.Gathered.{row_from, RowPut, RowOffered};
ghost use Rattle.image.specs.Rows.{header_row, object_row};

use block::need_tag;
use block::tags::CDHD;
use number::read_le16;

// Byte n of the header at p.
fn byte_at(room: &[u8], p: usize, n: usize) -> u32
    requires { (n < 13) × (p + 13 ≤ length room.now) }
    ensures { (result ≡ get_or room.now (p + n) 0) × (result < 256) }
{
    u32::from(room[p + n])
}

// Byte n of the header at p, a count of strips, in pixels.
fn pixels_at(room: &[u8], p: usize, n: usize) -> u32
    requires { (n < 13) × (p + 13 ≤ length room.now) }
    ensures { result ≡ 8 * get_or room.now (p + n) 0 }
{
    8 * byte_at(room, p, n)
}

// The row of an object whose CDHD has its payload at p: its id and no image; or its box, flags and parent.
fn header_row(room: &[u8], boxes: bool, p: usize) -> [u32; 8]
    requires { p + 13 ≤ length room.now }
    ensures { result ≡ header_row boxes room.now (Some (p, 0)) }
{
    if !boxes {
        let id = read_le16(room, p) as u32;
        return [id, 0, 0, 0, 0, 0, 0, 0];
    }
    let x = pixels_at(room, p, 2);
    let y = pixels_at(room, p, 3);
    let width = pixels_at(room, p, 4);
    let height = pixels_at(room, p, 5);
    let flags = byte_at(room, p, 6);
    let parent = byte_at(room, p, 7);
    [0, x, y, width, height, flags, parent, 0]
}

// The row of an object whose OBCD is [b, z).
pub fn object_row(room: &[u8], boxes: bool, b: usize, z: usize) -> [u32; 8]
    requires { (b + 8 ≤ z) × (z ≤ length room.now) }
    ensures { result ≡ object_row boxes room.now (Some (b, z)) }
{
    match need_tag(room, b + 8, z, CDHD, 13) {
        Some((p, _)) => header_row(room, boxes, p),
        None => [0; 8],
    }
}

// The row of an object whose OBIM has its IMHD at `p` and ends at `z`.
pub fn image_row(room: &[u8], p: usize, start: usize, z: usize) -> [u32; 8]
    requires { (p + 16 ≤ length room.now) × (start ≤ 1048576) × (z ≤ 1048576) }
    ensures { result ≡ row_from room.now (le16 room.now p) (Some (p, z)) start z }
{
    let id = read_le16(room, p) as u32;
    let x = read_le16(room, p + 8) as u32;
    let y = read_le16(room, p + 10) as u32;
    let width = read_le16(room, p + 12) as u32;
    let height = read_le16(room, p + 14) as u32;
    let count = read_le16(room, p + 2) as u32;
    [id, x, y, width, height, count, start as u32, z as u32]
}

// Puts the row of object o.
pub fn put_row(table: &mut [u32], o: usize, row: &[u32; 8])
    requires { (o ≤ 128) × (1032 ≤ length table.old) }
    ensures { RowPut table.old table.new o row.now }
{
    table[8 * o..8 * o + 8].copy_from_slice(row);
}

// Puts the row for each object of its id that has no image yet.
pub fn offer_row(table: &mut [u32], objects: usize, row: &[u32; 8])
    requires { (objects ≤ 128) × (1032 ≤ length table.old) }
    ensures { RowOffered table.old table.new objects row.now }
{
    for o in 1..=objects {
        if row[0] == table[8 * o] && table[8 * o + 6] == 0 {
            put_row(table, o, row);
        }
    }
}
