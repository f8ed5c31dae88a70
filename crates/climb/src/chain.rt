// The chain of an object's containers, climbed from child to parent.
ghost use Rattle.std.specs.Prelude.{◌≡◌, ◌≤◌, length};
ghost use Rattle.climb.specs.Climb.{is_open};
ghost use Rattle.climb.specs.Tables.{state_in, boxes_of};

// Of an object's row of 8 numbers: where its flags stand, and its parent.
const ROW_LENGTH: usize = 8;

const FLAGS: usize = 5;

const PARENT: usize = 6;

// A parent in this state lets its child be found, by the child's flags.
#[tactic(auto, unfolding(crate::specs::Climb::lets))]
fn lets(flags: u32, state: u32) -> bool
    ensures { result ≡ Rattle.climb.specs.Climb.lets flags state }
{
    if flags / 128 % 2 == 1 {
        state != 0
    } else {
        state == 0
    }
}

// Whether the chain of object o is open, with so many links left.
pub fn is_open(boxes: &[u32], states: &[u32], count: usize, links: usize, o: usize) -> bool
    requires { (1032 ≤ length boxes.now) × (129 ≤ length states.now) × (count ≤ 128) × (o ≤ count) }
    ensures { result ≡ is_open (boxes_of boxes.now count) (state_in states.now) links o }
{
    if links == 0 {
        return false;
    }
    let parent = boxes[ROW_LENGTH * o + PARENT] as usize;
    if parent == 0 {
        return true;
    }
    if count < parent {
        return false;
    }
    if lets(boxes[ROW_LENGTH * o + FLAGS], states[parent]) {
        return is_open(boxes, states, count, links - 1, parent);
    }
    false
}
