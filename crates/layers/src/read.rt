// What is read of one strip of a picture.
ghost use Rattle.std.specs.Prelude.{◌≡◌, ℕ, ◌≤◌, ◌<◌, length, get_or};
ghost use Rattle.layers.specs.Layer.{none_clear};
ghost use Rattle.layers.specs.Source.{Readable, PlanePasses, mask_in};

use crate::Source;
use room::picture::plane_in;

// Whether none of the first n pixels of a strip is transparent; `clear` says whether its code is a transparent one.
pub fn none_clear(values: &[u8], n: usize, index: u8, clear: bool) -> bool
    requires { n ≤ length values.now }
    ensures { result ≡ none_clear index clear values.now n }
{
    !(clear && values[..n].contains(&index))
}

// The rows of strip j of plane p; zeros where the plane is missing.
pub fn plane_rows(room: &[u8], m: Source, p: usize, j: usize, out: &mut [u8])
    requires strip_readable { Readable room.now m × (j < m.strips) × (p ≤ 4) × (m.height ≤ length out.old) }
    requires plane_passes { PlanePasses room.now m p }
    ensures { (y : ℕ) → y < m.height → get_or out.new y 0 ≡ mask_in room.now m p j y }
{
    let height = m.height;
    match plane_in(room, m.payload, m.payload_end, p) {
        Some((b, z)) => {
            // The strip passed its test, so the read is not refused.
            let _ = table::read_rows(room, m.strips, height, b, z, j, out);
        }
        None => number::buffer::fill(out, 0, height, 0),
    }
}
