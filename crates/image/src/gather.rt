// The table of a room's objects, in one walk over ROOM's blocks for the objects and one for their images.
ghost use Rattle.std.specs.Prelude.{◌≡◌, ◌+◌, ◌≤◌, length};
ghost use Rattle.image.specs.Image.{object_count};
ghost use Rattle.image.specs.Gathered.{Gathered, Filled, Offered, Paired};
ghost use Rattle.image.specs.Rows.{object_row};

use crate::row::{image_row, object_row, offer_row, put_row};
use block::tags::{IMHD, OBCD, OBIM};
use block::{find_tag, need_tag};

// Puts the rows of the objects, with no image, or with their boxes; and counts them.
pub fn list_objects(room: &[u8], boxes: bool, table: &mut [u32]) -> usize
    requires { (object_count room.now ≤ 128) × (1032 ≤ length table.old) }
    ensures count { result ≡ object_count room.now }
    ensures filled { Filled room.now (object_row boxes room.now) table.old table.new }
{
    let end = room.len();
    let mut at: usize = 8;
    let mut n: usize = 0;

    // No `for`: the step is a block's length.
    while let Some((b, z)) = find_tag(room, at, end, OBCD) {
        let row = object_row(room, boxes, b, z);
        n += 1;
        put_row(table, n, &row);
        at = z;
    }
    n
}

// Puts the OBIM [b, z) for each object of its id that has no image yet.
fn offer_image(room: &[u8], table: &mut [u32], objects: usize, b: usize, z: usize)
    requires block_in_room { (b + 8 ≤ z) × (z ≤ length room.now) × (length room.now ≤ 1048576) }
    requires table_fits { (objects ≤ 128) × (1032 ≤ length table.old) }
    ensures { Offered room.now table.old table.new objects (Some (b, z)) }
{
    if let Some((p, _)) = need_tag(room, b + 8, z, IMHD, 16) {
        let row = image_row(room, p, b + 8, z);
        offer_row(table, objects, &row);
    }
}

// Puts the images, in OBIM order, beside the objects that are listed.
fn pair_images(room: &[u8], table: &mut [u32], objects: usize)
    requires { (length room.now ≤ 1048576) × (objects ≤ 128) × (1032 ≤ length table.old) }
    ensures { Paired room.now table.old table.new objects }
{
    let end = room.len();
    let mut at: usize = 8;
    while let Some((b, z)) = find_tag(room, at, end, OBIM) {
        offer_image(room, table, objects, b, z);
        at = z;
    }
}

// Fills the table of the room's objects.
pub fn gather(room: &[u8], table: &mut [u32])
    requires { (length room.now ≤ 1048576) × (object_count room.now ≤ 128) × (1032 ≤ length table.old) }
    ensures { Gathered room.now table.new }
{
    let objects = list_objects(room, false, table);
    pair_images(room, table, objects);
}
