// The planes that differ, strip by strip.
ghost use Rattle.std.specs.Prelude.{◌≡◌, cond, ℕ, suc, ◌+◌, ◌^◌, ◌≤◌, ◌<◌, length, get_or};
ghost use Rattle.room.specs.Head.{Sound};
ghost use Rattle.room.specs.Picture.{found_mask};
ghost use Rattle.room.specs.Test.{strips};
ghost use Rattle.compare.specs.Compare.{most};
ghost use Rattle.compare.specs.Pair.{rooms_of};
ghost use Rattle.compare.specs.Tables.{declared_in, Sure, found_differ, Marks};

use crate::count::unequal;
use crate::pair::Pair;
use room::Room;
use room::picture::plane_in;

// Where plane p of a room stands; an undeclared one counts as missing.
fn declared_in(room: &[u8], r: Room, p: usize) -> Option<(usize, usize)>
    requires { Sound room.now r × (p ≤ 4) }
    ensures { result ≡ declared_in room.now r p }
{
    if p <= r.planes {
        plane_in(room, r.image, r.image_end, p)
    } else {
        None
    }
}

// The rows of strip k of a plane; zeros where it is missing.
fn found_rows(room: &[u8], n: usize, h: usize, f: Option<(usize, usize)>, k: usize, out: &mut [u8])
    requires { Sure n h room.now f × (k < n) × (n ≤ 128) × (h ≤ 200) × (h ≤ length out.old) }
    ensures { (y : ℕ) → y < h → get_or out.new y 0 ≡ found_mask n h room.now f k y }
{
    match f {
        Some((b, z)) => {
            // The strip passed its test, so the read is not refused.
            let _ = table::read_rows(room, n, h, b, z, k, out);
        }
        None => number::buffer::fill(out, 0, h, 0),
    }
}

// Whether strip k of two planes differs.
fn rows_differ(
    a: &[u8],
    f: Option<(usize, usize)>,
    b: &[u8],
    g: Option<(usize, usize)>,
    n: usize,
    h: usize,
    k: usize,
) -> bool
    requires { Sure n h a.now f × Sure n h b.now g × (k < n) × (n ≤ 128) × (h ≤ 200) }
    ensures { result ≡ found_differ n h a.now f b.now g k }
{
    let mut left = [0u8; 200];
    let mut right = [0u8; 200];
    found_rows(a, n, h, f, k, &mut left);
    found_rows(b, n, h, g, k, &mut right);
    unequal(&left, &right, h) != 0
}

// Bit q, for plane q + 1.
fn plane_bit(q: usize) -> u8
    requires { q < 4 }
    ensures { (result ≡ 2 ^ q) × (result ≤ 8) }
{
    1 << q
}

fn marked(old: u8, bit: u8, differs: bool) -> u8
    requires { (old < bit) × (bit ≤ 8) }
    ensures { result ≡ old + cond differs bit 0 }
{
    if differs { old + bit } else { old }
}

// Marks plane q + 1 of each strip beside the planes before it.
fn mark_plane(pair: Pair<'_>, q: usize, marks: &mut [u8])
    requires in_marks { (q < 4) × (128 ≤ length marks.old) }
    requires marked_before { Marks (rooms_of pair) q (strips pair.ra) marks.old }
    ensures { Marks (rooms_of pair.entry) (suc q) (strips pair.entry.ra) marks.new }
{
    let Pair { a, ra, b, rb } = pair;
    let n = ra.width / 8;
    let h = ra.height;
    let f = declared_in(a, ra, q + 1);
    let g = declared_in(b, rb, q + 1);
    let bit = plane_bit(q);
    for k in 0..n {
        let differs = rows_differ(a, f, b, g, n, h, k);
        marks[k] = marked(marks[k], bit, differs);
    }
}

// The planes of each strip that differ, up to the larger N.
pub fn mark_planes(pair: Pair<'_>, marks: &mut [u8])
    requires marks_fit { 128 ≤ length marks.old }
    requires none_marked { Marks (rooms_of pair) 0 (strips pair.ra) marks.old }
    ensures { Marks (rooms_of pair.entry) (most (rooms_of pair.entry)) (strips pair.entry.ra)
        marks.new }
{
    for q in 0..pair.ra.planes.max(pair.rb.planes) {
        mark_plane(pair, q, marks);
    }
}
