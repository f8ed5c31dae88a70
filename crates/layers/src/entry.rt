// Entries of a shown list, and where their images are read from.
ghost use Rattle.std.specs.Prelude.{◌≡◌, true, List, ℕ, ◌+◌, ◌*◌, ◌≤◌, length};
ghost use Rattle.block.specs.Tree.{is_at};
ghost use Rattle.image.specs.Image.{object_count, state_block};
ghost use Rattle.image.specs.Pixel.{smap_of};
ghost use Rattle.image.specs.Gathered.{Gathered};
ghost use Rattle.scene.specs.Painting.{covers};
ghost use Rattle.room.specs.declared.Room as room;
ghost use Rattle.layers.specs.Decoded.{decoded, entry_at};
ghost use Rattle.layers.specs.Source.{Stands};

use crate::Source;
use block::find_tag;
use block::tags::SMAP;
use image::state::state_block;
use scene::Entry;

// Entry i of a shown list.
pub fn entry_at(shown: &[u32], i: usize) -> Entry
    requires { 4 * i + 4 ≤ length shown.now }
    ensures { result ≡ entry_at shown.now i }
{
    let at = 4 * i;
    let object = shown[at];
    let state = shown[at + 1];
    let x = shown[at + 2];
    let y = shown[at + 3];
    Entry {
        object,
        state,
        x,
        y,
    }
}

// Whether the box of an entry holds strip k of the room.
pub fn covers_strip(table: &[u32], e: Entry, k: usize) -> bool
    requires { (e.object ≤ 128) × (1032 ≤ length table.now) }
    ensures { (s : List ℕ) (r : room.Room) → Gathered s table.now → 1 ≤ e.object → e.object ≤ object_count s
        → result ≡ covers (decoded s r) e k }
{
    let left = e.x as usize / 8;
    let strips = table[8 * e.object as usize + 3] as usize / 8;
    (left..left + strips).contains(&k)
}

// Where the image of object o in state st is read from.
pub fn source_of(room: &[u8], table: &[u32], o: usize, st: usize) -> Source
    requires object_gathered { Gathered room.now table.now × (1 ≤ o) × (o ≤ object_count room.now) × (st ≤ 9) }
    requires has_smap { is_at (smap_of room.now (state_block room.now o st)) ≡ true }
    ensures { Stands room.now o st result }
{
    let strips = table[8 * o + 3] as usize / 8;
    let height = table[8 * o + 4] as usize;
    let (b, z) = state_block(room, table, o, st).unwrap();
    let (smap, smap_end) = find_tag(room, b + 8, z, SMAP).unwrap();
    Source {
        payload: b + 8,
        payload_end: z,
        smap,
        smap_end,
        strips,
        height,
    }
}
