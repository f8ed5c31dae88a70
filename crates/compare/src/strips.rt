// The pixels that differ, strip by strip.
ghost use Rattle.std.specs.Prelude.{◌≡◌, ◌≤◌, ◌<◌, length};
ghost use Rattle.room.specs.Test.{strips};
ghost use Rattle.compare.specs.Compare.{pixels_differing};
ghost use Rattle.compare.specs.Pair.{rooms_of};
ghost use Rattle.compare.specs.Tables.{Counts};

use crate::count::unequal;
use crate::pair::Pair;

// How many pixels of strip k differ.
fn strip_pixels(pair: Pair<'_>, k: usize) -> u32
    requires { k < strips pair.ra }
    ensures { result ≡ pixels_differing (rooms_of pair.entry) k }
{
    let Pair { a, ra, b, rb } = pair;
    let n = ra.width / 8;
    let h = ra.height;
    let mut left = [0u8; 1600];
    let mut right = [0u8; 1600];
    // The strips passed their tests, so neither read is refused.
    let _ = table::read_strip(a, n, h, ra.smap, ra.smap_end, k, &mut left);
    let _ = table::read_strip(b, n, h, rb.smap, rb.smap_end, k, &mut right);
    unequal(&left, &right, 8 * h)
}

// The count of each strip.
pub fn count_pixels(pair: Pair<'_>, counts: &mut [u32])
    requires { 128 ≤ length counts.old }
    ensures { Counts (rooms_of pair.entry) (strips pair.entry.ra) counts.new }
{
    for k in 0..pair.ra.width / 8 {
        counts[k] = strip_pixels(pair, k);
    }
}
