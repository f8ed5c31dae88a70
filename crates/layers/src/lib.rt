// What one strip of a picture, a room's own or an object's image, brings to a strip of the surfaces (document 01, "Sessions", "Painting
// afresh"): where it is read from, what is read of it, and what it makes of the surfaces' bytes. Crate repaint writes it.
#![tactic(auto)]

pub mod entry;
pub mod read;

ghost use Rattle.std.specs.Prelude.{◌≡◌};
ghost use Rattle.image.specs.Image.{object_count};
ghost use Rattle.layers.specs.Ready as spec;

use room::Room;

// A room that passes its test: its bytes, its sizes, and the table of its objects' rows.
#[derive(Clone, Copy, Debug, PartialEq, Eq)]
pub struct Ready<'a> {
    pub bytes: &'a [u8],
    pub room: Room,
    pub table: &'a [u32],
    ghost ready: { spec.Ready bytes.now room table.now },
    ghost counted: { room.objects ≡ object_count bytes.now },
}

// Where a picture is read from, a room's background or an object's image: the payload of the block that holds it, its SMAP block with
// its header, and its sizes.
#[derive(Clone, Copy, Debug, PartialEq, Eq)]
pub struct Source {
    pub payload: usize,
    pub payload_end: usize,
    pub smap: usize,
    pub smap_end: usize,
    pub strips: usize,
    pub height: usize,
}
