// Entries of a shown list over a strip of the surfaces, in order.
ghost use Rattle.std.specs.Prelude.{◌≡◌, [], ◌∷◌, ◌*◌, ◌≤◌, ◌<◌, length};
ghost use Rattle.grid.specs.Grid.{upd};
ghost use Rattle.room.specs.Test.{strips};
ghost use Rattle.scene.specs.Painting.{pixel_layout, mask_layout};
ghost use Rattle.layers.specs.Decoded.{decoded, entries_of};
ghost use Rattle.layers.specs.Layer.{over_byte};
ghost use Rattle.layers.specs.Ready.{Paintable};

use crate::Painting;
use crate::picture::{put_planes, put_strip};
use layers::entry::{covers_strip, entry_at, source_of};
use scene::Entry;

// An entry over strip k. Its image's strip is read once: whether none of its pixels is transparent says what its mask bytes do.
fn entry_strip(painting: Painting<'_>, e: Entry, k: usize, pixels: &mut [u8], masks: &mut [u8])
    requires entry_ready { Paintable painting.bytes.now painting.room e × (k < strips painting.room) }
    requires surfaces_fit { (painting.room.width * painting.room.height ≤ length pixels.old)
        × (strips painting.room * (painting.room.planes * painting.room.height) ≤ length masks.old) }
    ensures pixels_after { pixels.new
        ≡ upd (over_byte (pixel_layout (decoded painting.entry.bytes.now painting.entry.room)) (e ∷ []) k) pixels.old }
    ensures masks_after { masks.new
        ≡ upd (over_byte (mask_layout (decoded painting.entry.bytes.now painting.entry.room)) (e ∷ []) k) masks.old }
{
    let Painting {
        bytes,
        room,
        table,
        ..
    } = painting;
    if covers_strip(table, e, k) {
        let m = source_of(bytes, table, e.object as usize, e.state as usize);
        let j = k - e.x as usize / 8;
        let y = e.y as usize;
        let opaque = put_strip(bytes, room, m, j, k, y, pixels);
        put_planes(bytes, room, m, j, k, y, opaque, masks);
    }
}

// The entries over strip k.
pub fn entries_strip(painting: Painting<'_>, k: usize, pixels: &mut [u8], masks: &mut [u8])
    requires strip_in_room { k < strips painting.room }
    requires surfaces_fit { (painting.room.width * painting.room.height ≤ length pixels.old)
        × (strips painting.room * (painting.room.planes * painting.room.height) ≤ length masks.old) }
    ensures pixels_after { pixels.new
        ≡ upd (over_byte (pixel_layout (decoded painting.entry.bytes.now painting.entry.room))
        (entries_of painting.entry.shown.now painting.entry.n) k) pixels.old }
    ensures masks_after { masks.new
        ≡ upd (over_byte (mask_layout (decoded painting.entry.bytes.now painting.entry.room))
        (entries_of painting.entry.shown.now painting.entry.n) k) masks.old }
{
    for i in 0..painting.n {
        entry_strip(painting, entry_at(painting.shown, i), k, pixels, masks);
    }
}
