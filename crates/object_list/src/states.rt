// Which states of an object can be drawn.
ghost use Rattle.std.specs.Prelude.{◌≡◌, cond, ◌≤◌};
ghost use Rattle.image.specs.Image.{object_count};
ghost use Rattle.image.specs.Gathered.{Gathered};
ghost use Rattle.object_list.specs.List.{state_bits};

use image::state::image_drawable;

// Which of states 1 to 9 of object o can be drawn, bit st − 1 for state st.
pub fn state_bits(room: &[u8], table: &[u32], objects: usize, o: usize) -> usize
    requires { Gathered room.now table.now × (objects ≡ object_count room.now) }
    ensures { result ≡ state_bits room.now o 9 }
{
    let mut bits = 0;
    for n in 0..9 {
        if image_drawable(room, table, objects, o, n + 1) {
            bits += 1 << n;
        }
    }
    bits
}
