// How many bytes of two rows differ.
ghost use Rattle.std.specs.Prelude.{◌≡◌, ◌≤◌, length, get_or};
ghost use Rattle.compare.specs.Compare.{differing};

// At how many of the first n places f and g differ.
pub fn unequal(f: &[u8], g: &[u8], n: usize) -> u32
    requires { (n ≤ length f.now) × (n ≤ length g.now) × (n ≤ 1600) }
    ensures count { result ≡ differing (λ j. get_or f.now j 0) (λ j. get_or g.now j 0) n }
    ensures at_most_n { result ≤ n }
{
    let mut count: u32 = 0;
    for i in 0..n {
        count += u32::from(f[i] != g[i]);
    }
    count
}
