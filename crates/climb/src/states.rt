// The state that a shown list gives each object.
ghost use Rattle.std.specs.Prelude.{◌≡◌, ◌≤◌, length};
ghost use Rattle.stored.specs.Bytes.{entries};
ghost use Rattle.stored.specs.Layout.{most_shown};
ghost use Rattle.climb.specs.Climb.{state_of};
ghost use Rattle.climb.specs.Tables.{States};

use stored::Shown;

// Objects 0 to 128.
const OBJECTS: usize = 129;

// The state of object o in a shown list, else 0.
fn state_of(s: &Shown, o: u32) -> u32
    requires { s.now.n ≤ most_shown }
    ensures { result ≡ state_of (entries s.now) o }
{
    s.list[..s.n]
        .iter()
        .find(|e| e.object == o)
        .map_or(0, |e| e.state)
}

// Puts the states of objects 0 to 128.
pub fn fill_states(s: Shown, states: &mut [u32])
    requires { (s.n ≤ most_shown) × (129 ≤ length states.old) }
    ensures { States (entries s) states.new }
{
    for o in 0..OBJECTS {
        states[o] = state_of(&s, o as u32);
    }
}
