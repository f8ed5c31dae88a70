// Cells of one row of the frame under pixels of a picture: n of them from (x, y) on, the picture's from `from` on. Nothing here reads the masks:
// a run is hidden nowhere, or where the bits that it is given say so. The index `clear` is never written.
#![tactic(auto)]

ghost use Rattle.std.specs.Prelude.{◌≡◌, false, ◌||◌, cond, ◌+◌, ◌-◌, ◌*◌, ◌/◌, ◌%◌, ◌^◌, ◌≤◌, ◌<◌, eqb, length, get_or, set};
ghost use Rattle.grid.specs.Grid.{upd, rowed};

// The picture's colour v over the colour old: hidden where `bits` is odd.
pub fn blend(v: u8, old: u8, clear: u8, bits: u16) -> u8
    ensures { result ≡ cond (eqb v clear || eqb (bits % 2) 1) old v }
{
    if (v == clear) | (bits % 2 == 1) {
        old
    } else {
        v
    }
}

// A run that no plane hides.
pub fn plain(
    frame: &mut [u8],
    picture: &[u8],
    w: usize,
    x: usize,
    y: usize,
    from: usize,
    n: usize,
    clear: u8,
)
    requires { (x + n ≤ w) × (y * w + (x + n) ≤ length frame.old) × (from + n ≤ length picture.now) }
    ensures { frame.new ≡ upd (rowed w x y n (λ k o.
        cond (eqb (get_or picture.now (from + k) 0) clear || false) o (get_or picture.now (from + k) 0))) frame.old }
{
    let at = y * w + x;
    for k in 0..n {
        frame[at + k] = blend(picture[from + k], frame[at + k], clear, 0);
    }
}

// The k-th of at most eight pixels over what is there: bit 7 of `bits` hides the first.
pub fn cell(
    frame: &[u8],
    picture: &[u8],
    at: usize,
    from: usize,
    clear: u8,
    bits: u16,
    k: usize,
) -> u8
    requires { (at + k < length frame.now) × (from + k < length picture.now) × (k < 8) }
    ensures { result ≡ cond (eqb (get_or picture.now (from + k) 0) clear || eqb (bits / 2 ^ (7 - k) % 2) 1)
        (get_or frame.now (at + k) 0) (get_or picture.now (from + k) 0) }
{
    blend(picture[from + k], frame[at + k], clear, bits >> (7 - k))
}

// A run of at most eight, pixel by pixel.
pub fn few(
    frame: &mut [u8],
    picture: &[u8],
    w: usize,
    x: usize,
    y: usize,
    from: usize,
    n: usize,
    clear: u8,
    bits: u16,
)
    requires { (x + n ≤ w) × (y * w + (x + n) ≤ length frame.old) × (from + n ≤ length picture.now) × (n ≤ 8) }
    ensures { frame.new ≡ upd (rowed w x y n (λ k o.
        cond (eqb (get_or picture.now (from + k) 0) clear || eqb (bits / 2 ^ (7 - k) % 2) 1) o
        (get_or picture.now (from + k) 0))) frame.old }
{
    let at = y * w + x;
    for k in 0..n {
        frame[at + k] = cell(frame, picture, at, from, clear, bits, k);
    }
}

// Eight bytes, one behind the other.
pub fn put_eight(
    frame: &mut [u8],
    at: usize,
    a: u8,
    b: u8,
    c: u8,
    d: u8,
    e: u8,
    f: u8,
    g: u8,
    h: u8,
)
    requires { at + 8 ≤ length frame.old }
    ensures { frame.new ≡ set (set (set (set (set (set (set (set frame.old at a) (at + 1) b) (at + 2) c) (at + 3) d) (at + 4) e)
        (at + 5) f) (at + 6) g) (at + 7) h }
{
    frame[at..at + 8].copy_from_slice(&[a, b, c, d, e, f, g, h]);
}

// A run of eight. All are made before one is written, so that the compiler takes the eight at once: for all that it knows, a store could change
// what the next load finds. `bits` is wider than a byte because a byte's bit 7, its sign, would be tested in a way of its own.
pub fn eight(
    frame: &mut [u8],
    picture: &[u8],
    w: usize,
    x: usize,
    y: usize,
    from: usize,
    clear: u8,
    bits: u16,
)
    requires { (x + 8 ≤ w) × (y * w + (x + 8) ≤ length frame.old) × (from + 8 ≤ length picture.now) }
    ensures { frame.new ≡ upd (rowed w x y 8 (λ k o.
        cond (eqb (get_or picture.now (from + k) 0) clear || eqb (bits / 2 ^ (7 - k) % 2) 1) o
        (get_or picture.now (from + k) 0))) frame.old }
{
    let at = y * w + x;
    let a = cell(frame, picture, at, from, clear, bits, 0);
    let b = cell(frame, picture, at, from, clear, bits, 1);
    let c = cell(frame, picture, at, from, clear, bits, 2);
    let d = cell(frame, picture, at, from, clear, bits, 3);
    let e = cell(frame, picture, at, from, clear, bits, 4);
    let f = cell(frame, picture, at, from, clear, bits, 5);
    let g = cell(frame, picture, at, from, clear, bits, 6);
    let h = cell(frame, picture, at, from, clear, bits, 7);
    put_eight(frame, at, a, b, c, d, e, f, g, h);
}
