// Runs of bytes in a buffer: a few bytes given, copies of one byte, and a part of another buffer.
ghost use Rattle.std.specs.Prelude.{◌≡◌, [], ◌∷◌, ◌++◌, ◌+◌, ◌≤◌, length, take, drop, replicate};
ghost use Rattle.std.proofs.lemmas.List.Edits.{sets};

// Two bytes into `out` from `at` on.
pub fn put_two(out: &mut [u8], at: usize, a: u8, b: u8)
    requires { at + 2 ≤ length out.old }
    ensures { out.new ≡ sets out.old at (a ∷ b ∷ []) }
{
    out[at] = a;
    out[at + 1] = b;
}

// Four bytes into `out` from `at` on.
pub fn put_four(out: &mut [u8], at: usize, a: u8, b: u8, c: u8, d: u8)
    requires { at + 4 ≤ length out.old }
    ensures { out.new ≡ sets out.old at (a ∷ b ∷ c ∷ d ∷ []) }
{
    put_two(out, at, a, b);
    put_two(out, at + 2, c, d);
}

// n copies of b into `out` from `from` on.
#[tactic(auto, using(std::proofs::lemmas::Slice::overwrites))]
pub fn fill(out: &mut [u8], from: usize, n: usize, b: u8)
    requires { from + n ≤ length out.old }
    ensures filled { take (from + n) out.new ≡ take from out.old ++ replicate n b }
    ensures rest_stays { drop (from + n) out.new ≡ drop (from + n) out.old }
{
    out[from..from + n].fill(b);
}

// n bytes of `src` from `from` on into `out` from `to` on.
#[tactic(auto, using(std::proofs::lemmas::Slice::overwrites))]
pub fn copy(src: &[u8], from: usize, n: usize, out: &mut [u8], to: usize)
    requires { (from + n ≤ length src.now) × (to + n ≤ length out.old) }
    ensures copied { take (to + n) out.new ≡ take to out.old ++ take n (drop from src.now) }
    ensures rest_stays { drop (to + n) out.new ≡ drop (to + n) out.old }
{
    out[to..to + n].copy_from_slice(&src[from..from + n]);
}
