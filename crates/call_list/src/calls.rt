// Calls read from bytes, and played in order.
ghost use Rattle.std.specs.Prelude.{◌≡◌, ◌+◌, ◌*◌, ◌≤◌, length};
ghost use Rattle.number.specs.Number.{le32};
ghost use Rattle.play.specs.Bytes.{lent, after_call, number_of, played};
ghost use Rattle.call_list.specs.Coded.{call_from, call_at, calls_of, call_count};
ghost use Rattle.call_list.specs.Run.{played_number, put_first};

use number::read_le32;
use play::calls::call;
use scene::{Call, Place, Step};

// One of a call's five numbers.
fn field(calls: &[u8], at: usize) -> u32
    requires { at + 4 ≤ length calls.now }
    ensures { result ≡ le32 calls.now at }
{
    read_le32(calls, at) as u32
}

// The call in the 20 bytes from `at` on.
fn call_from(calls: &[u8], at: usize) -> Call
    requires { at + 20 ≤ length calls.now }
    ensures { result ≡ call_from calls.now at }
{
    let object = field(calls, at + 4);
    let state = field(calls, at + 8);
    match field(calls, at) {
        0 => Call::Make(Step::Hide(object)),
        1 => Call::Make(Step::Draw(object, state, Place::Last)),
        2 => {
            let place = Place::Strip(field(calls, at + 12), field(calls, at + 16));
            Call::Make(Step::Draw(object, state, place))
        }
        _ => Call::TakeBack,
    }
}

// Plays call i: its number.
fn play_one(
    room: &[u8],
    session: &mut [u8],
    pixels: &mut [u8],
    masks: &mut [u8],
    calls: &[u8],
    i: usize,
) -> u8
    requires { 20 * i + 20 ≤ length calls.now }
    ensures number { result
        ≡ number_of room.now (lent session.old pixels.old masks.old) (call_at calls.now i) }
    ensures lent_after { lent session.new pixels.new masks.new
        ≡ after_call room.now (lent session.old pixels.old masks.old) (call_at calls.now i) }
{
    let next = call_from(calls, 20 * i);
    call(room, session, pixels, masks, next) as u8
}

// How many calls are played: as many as `calls` has whole records and `numbers` has bytes.
pub fn call_count(calls: &[u8], numbers: &[u8]) -> usize
    ensures { result ≡ call_count calls.now numbers.now }
{
    (calls.len() / 20).min(numbers.len())
}

// Plays the calls on bytes that hold a session, and keeps their numbers.
pub fn play_all(
    room: &[u8],
    session: &mut [u8],
    pixels: &mut [u8],
    masks: &mut [u8],
    calls: &[u8],
    numbers: &mut [u8],
)
    ensures lent_after { lent session.new pixels.new masks.new
        ≡ played room.now (lent session.old pixels.old masks.old)
        (calls_of calls.now (call_count calls.now numbers.old)) }
    ensures numbers_after { numbers.new
        ≡ put_first (played_number room.now (lent session.old pixels.old masks.old) calls.now)
        (call_count calls.now numbers.old) numbers.old }
{
    for i in 0..call_count(calls, numbers) {
        numbers[i] = play_one(room, session, pixels, masks, calls, i);
    }
}
