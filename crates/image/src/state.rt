// The states of an object's image, from the table of objects.
ghost use Rattle.std.specs.Prelude.{◌≡◌, ◌≤◌};
ghost use Rattle.image.specs.Image.{object_count, state_right, state_block, drawable};
ghost use Rattle.image.specs.Gathered.{Gathered};

use block::find_tag;
use block::tags::IM00;

// The block of the image of object o in state st.
pub fn state_block(room: &[u8], table: &[u32], o: usize, st: usize) -> Option<(usize, usize)>
    requires { Gathered room.now table.now × (1 ≤ o) × (o ≤ object_count room.now) × (st ≤ 9) }
    ensures { result ≡ state_block room.now o st }
{
    let start = table[8 * o + 6] as usize;
    let end = table[8 * o + 7] as usize;
    if start == 0 {
        return None;
    }
    find_tag(room, start, end, IM00 + st)
}

// Whether a state can be one of the object's: 1 to 9, and up to numImages.
fn state_right(st: usize, images: usize) -> bool
    ensures { result ≡ state_right st images }
{
    (1 <= st) & (st <= 9) & (st <= images)
}

// Whether object o of a room with `objects` objects can be drawn in state st.
pub fn image_drawable(room: &[u8], table: &[u32], objects: usize, o: usize, st: usize) -> bool
    requires { Gathered room.now table.now × (objects ≡ object_count room.now) }
    ensures { result ≡ drawable room.now o st }
{
    if !((1 <= o) & (o <= objects)) {
        return false;
    }
    if !state_right(st, table[8 * o + 5] as usize) {
        return false;
    }
    state_block(room, table, o, st).is_some()
}
