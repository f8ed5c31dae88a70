// A room loaded and a list of calls played on it, in one call: the load, then each draw, hide and take-back in order, with its number kept
// (document 01, "Sessions"). Demand 3 stands in the contract of `run` itself.
#![tactic(auto)]

ghost use Rattle.std.specs.Prelude.{◌≡◌, Ok};
ghost use Rattle.refusal.specs.Answer.{done};
ghost use Rattle.room.specs.declared.Room as rooms;
ghost use Rattle.play.specs.Bytes.{lent, test_of};
ghost use Rattle.call_list.specs.Coded.{call_count};
ghost use Rattle.call_list.specs.Run.{bytes_run, numbers_run};
ghost use Rattle.call_list.specs.Promise.{RunHolds};

use crate::calls::play_all;
use refusal::Refusal;

pub mod calls;

// Loads the room and plays the calls. A refusal is the load's, and changes nothing.
pub fn run(
    room: &[u8],
    session: &mut [u8],
    pixels: &mut [u8],
    masks: &mut [u8],
    calls: &[u8],
    numbers: &mut [u8],
) -> Result<(), Refusal>
    ensures answer { result ≡ done (test_of room.now (lent session.old pixels.old masks.old)) }
    ensures lent_after { lent session.new pixels.new masks.new
        ≡ bytes_run room.now (lent session.old pixels.old masks.old) calls.now
        (call_count calls.now numbers.old) }
    ensures numbers_after { numbers.new
        ≡ numbers_run room.now (lent session.old pixels.old masks.old) calls.now
        (call_count calls.now numbers.old) numbers.old }
    ensures run_holds { (r : rooms.Room)
        → test_of room.now (lent session.old pixels.old masks.old) ≡ Ok r
        → RunHolds room.now r (lent session.old pixels.old masks.old) calls.now
        (call_count calls.now numbers.old) numbers.new (lent session.new pixels.new masks.new) }
{
    load::load(room, session, pixels, masks)?;
    play_all(room, session, pixels, masks, calls, numbers);
    Ok(())
}
