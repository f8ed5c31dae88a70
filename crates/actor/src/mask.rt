// The mask bits that decide which pixels of an actor are hidden: one, or eight in a row.
ghost use Rattle.std.specs.Prelude.{◌≡◌, ℕ, ◌+◌, ◌-◌, ◌*◌, ◌/◌, ◌%◌, ◌^◌, ◌≤◌, ◌<◌, length, get_or};
ghost use Rattle.actor.specs.Hidden.{hidden_at};

// The masks of the n planes of a room of w by h.
#[derive(Clone, Copy, Debug)]
pub struct Masks<'a> {
    pub bytes: &'a [u8],
    pub w: usize,
    pub h: usize,
    pub n: usize,
    pub ghost wide: { w ≤ 1024 },
    pub ghost whole: { w % 8 ≡ 0 },
    pub ghost high: { h ≤ 200 },
    pub ghost few: { n ≤ 4 },
    pub ghost room: { w / 8 * (n * h) ≤ length bytes.now },
}

impl<'a> Masks<'a> {
    // Whether the pixel (x, y) is hidden at a clip level: by that plane alone.
    #[tactic(auto, unfolding(crate::specs::Hidden::hidden_at, crate::specs::Hidden::mask_bit))]
    pub(crate) fn hide(&self, clip: usize, x: usize, y: usize) -> bool
        requires { (x < self.now.w) × (y < self.now.h) }
        ensures { result ≡ hidden_at self.now.bytes.now self.now.w self.now.h self.now.n clip x y }
    {
        if clip < 1 || self.n < clip {
            return false;
        }
        let b = self.bytes[((clip - 1) * self.h + y) * (self.w / 8) + x / 8];
        (b >> (7 - x % 8)) % 2 == 1
    }
}

// The bits of eight pixels that begin at bit s of byte i, counted from the left, and end in byte j: bit 7 of the answer is the first pixel's.
// What stands above bit 7 means nothing.
pub(crate) fn window(masks: &[u8], i: usize, j: usize, s: usize) -> u16
    requires { (i < length masks.now) × (j < length masks.now) × (s < 8) }
    ensures from_first_byte { (k : ℕ) → s + k < 8 → result / 2 ^ (7 - k) % 2 ≡ get_or masks.now i 0 / 2 ^ (7 - (s + k)) % 2 }
    ensures from_second_byte { (k : ℕ) → k < 8 → 8 ≤ s + k → result / 2 ^ (7 - k) % 2 ≡ get_or masks.now j 0 / 2 ^ (15 - (s + k)) % 2 }
{
    let a = u16::from(masks[i]);
    let b = u16::from(masks[j]);
    (a * 256 + b) >> (8 - s)
}
