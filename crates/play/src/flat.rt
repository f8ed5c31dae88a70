// A shown list as the numbers that painting reads: object, state, x, y for each entry, the oldest first.
ghost use Rattle.std.specs.Prelude.{◌≡◌, ◌*◌, ◌≤◌, length};
ghost use Rattle.layers.specs.Decoded.{entries_of};
ghost use Rattle.stored.specs.Bytes.{entries};
ghost use Rattle.stored.specs.Layout.{most_shown};

use stored::Shown;

pub fn flatten(s: Shown, out: &mut [u32])
    requires { (s.n ≤ most_shown) × (256 ≤ length out.old) }
    ensures { entries_of out.new s.n ≡ entries s }
{
    for i in 0..s.n {
        let e = s.list[i];
        let at = 4 * i;
        out[at] = e.object;
        out[at + 1] = e.state;
        out[at + 2] = e.x;
        out[at + 3] = e.y;
    }
}
