// Where the pixels lie: by rows, from the order in which they are made.
ghost use Rattle.std.specs.Prelude.{◌≡◌, ◌+◌, ◌*◌, ◌≤◌, ◌<◌, true, false, length, get_or, take, drop};
ghost use Rattle.number.specs.Buffer.{over};
ghost use Rattle.strip.specs.Picture.{source_of, up_to, placed};

// Row y of a strip whose pixels are made by columns, where the rows above it are done. A column further is h pixels further, so that no pixel
// costs a division.
fn row(src: &[u8], h: usize, y: usize, out: &mut [u8])
    requires row_fits { (h ≤ 200) × (y < h) × (8 * h ≤ length src.now) × (8 * h ≤ length out.old) }
    requires rows_above_done { take (8 * y) out.old ≡ up_to (λ j. get_or src.now (source_of true h j) 0) (8 * y) }
    ensures length_stays { length out.new ≡ length out.old }
    ensures rest_stays { drop (8 * y + 8) out.new ≡ drop (8 * y + 8) out.old }
    ensures row_done { take (8 * y + 8) out.new ≡ up_to (λ j. get_or src.now (source_of true h j) 0) (8 * y + 8) }
{
    let base = 8 * y;
    for c in 0..8 {
        out[base + c] = src[c * h + y];
    }
}

// The pixels of `src`, made by columns, into the first 8h bytes of `out`.
fn columns(src: &[u8], h: usize, out: &mut [u8])
    requires { (h ≤ 200) × (8 * h ≤ length src.now) × (8 * h ≤ length out.old) }
    ensures { out.new ≡ over (placed true h src.now) out.old }
{
    for y in 0..h {
        row(src, h, y, out);
    }
}

// The pixels of `src`, made by rows already, into the first 8h bytes of `out`. With copy_from_slice the archive needed memmove too, since for all
// that the compiler knows the two may overlap.
fn rows(src: &[u8], h: usize, out: &mut [u8])
    requires { (8 * h ≤ length src.now) × (8 * h ≤ length out.old) }
    ensures { out.new ≡ over (placed false h src.now) out.old }
{
    for i in 0..8 * h {
        out[i] = src[i];
    }
}

// The pixels of `src`, by rows, into the first 8h bytes of `out`.
pub(crate) fn place(src: &[u8], vertical: bool, h: usize, out: &mut [u8])
    requires { (h ≤ 200) × (8 * h ≤ length src.now) × (8 * h ≤ length out.old) }
    ensures { out.new ≡ over (placed vertical h src.now) out.old }
{
    if vertical {
        columns(src, h, out);
    } else {
        rows(src, h, out);
    }
}
