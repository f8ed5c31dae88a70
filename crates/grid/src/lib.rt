// Writes into flat buffers that are read as grids: a strip of pixels, and rows of a mask plane.
#![tactic(auto)]

ghost use Rattle.std.specs.Prelude.{◌≡◌, false, ◌+◌, ◌-◌, ◌*◌, ◌≤◌, length};
ghost use Rattle.grid.specs.Grid.{upd, boxed, Inside};
ghost use Rattle.grid.specs.Mask.{mask_over, rows_over, Plane};
ghost use Rattle.grid.specs.Strip.{pixel_over, strip_over};

// A pixel over the pixel that was there; `index` is the transparent one.
pub fn pixel_over(value: u8, old: u8, index: u8, transparent: bool) -> u8
    ensures { result ≡ pixel_over index transparent value old }
{
    if transparent && value == index {
        old
    } else {
        value
    }
}

// Writes a strip of 8 by rows pixels, given by rows, at column 8 * s and row y0 of a surface of w by h.
pub fn blit_strip(
    pixels: &mut [u8],
    w: usize,
    h: usize,
    s: usize,
    y0: usize,
    strip: &[u8],
    rows: usize,
    index: u8,
    transparent: bool,
)
    requires inside { Inside (length pixels.old) w h (8 * s) y0 8 rows }
    requires rows_given { 8 * rows ≤ length strip.now }
    ensures { pixels.new
        ≡ upd (boxed w (8 * s) y0 8 rows (strip_over strip.now index transparent)) pixels.old }
{
    let x0 = 8 * s;
    for r in 0..rows {
        let at = (y0 + r) * w + x0;
        let from = 8 * r;
        for c in 0..8 {
            pixels[at + c] = pixel_over(strip[from + c], pixels[at + c], index, transparent);
        }
    }
}

// A mask byte over the one that was there: in its place, or joined to it.
pub fn mask_over(value: u8, old: u8, replace: bool) -> u8
    ensures { result ≡ mask_over replace value old }
{
    if replace { value } else { old | value }
}

// Writes n rows of strip s of plane k, from row y0, or joins their bits to what is there. A plane has h rows of width strips.
pub fn put_rows(
    masks: &mut [u8],
    width: usize,
    h: usize,
    planes: usize,
    k: usize,
    s: usize,
    y0: usize,
    rows: &[u8],
    n: usize,
    replace: bool,
)
    requires in_plane { Plane (length masks.old) width h planes k s y0 n }
    requires rows_given { n ≤ length rows.now }
    ensures { masks.new
        ≡ upd (boxed width s ((k - 1) * h + y0) 1 n (rows_over rows.now replace)) masks.old }
{
    let top = (k - 1) * h + y0;
    for r in 0..n {
        let at = (top + r) * width + s;
        masks[at] = mask_over(rows[r], masks[at], replace);
    }
}

// Joins n copies of one mask byte to rows of strip s of plane k, from row y0. A byte with no bit set changes nothing: no row is touched.
pub fn join_run(
    masks: &mut [u8],
    width: usize,
    h: usize,
    planes: usize,
    k: usize,
    s: usize,
    y0: usize,
    value: u8,
    n: usize,
)
    requires { Plane (length masks.old) width h planes k s y0 n }
    ensures { masks.new
        ≡ upd (boxed width s ((k - 1) * h + y0) 1 n (λ c r o. mask_over false value o)) masks.old }
{
    if value == 0 {
        return;
    }
    let top = (k - 1) * h + y0;
    for r in 0..n {
        let at = (top + r) * width + s;
        masks[at] |= value;
    }
}
