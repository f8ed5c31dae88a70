// A call on any bytes: the room's own refusals first, 1 to 8 with 4, then what the step or the take-back comes to.
ghost use Rattle.std.specs.Prelude.{◌≡◌};
ghost use Rattle.play.specs.Bytes.{lent, number_of, after_call};

use crate::tested::call_tested;
use image::gather::gather;
use replay::OBJECTS_LENGTH;
use room::test::{surfaces_lent, test_room};
use scene::Call;
use stored::SESSION_SIZE;

// A draw, a hide or a take-back: its number.
pub fn call(room: &[u8], session: &mut [u8], pixels: &mut [u8], masks: &mut [u8], call: Call) -> u32
    ensures number { result
        ≡ number_of room.now (lent session.old pixels.old masks.old) call }
    ensures lent_after { lent session.new pixels.new masks.new
        ≡ after_call room.now (lent session.old pixels.old masks.old) call }
{
    let lent = surfaces_lent(SESSION_SIZE, session.len(), pixels.len(), masks.len());
    match test_room(room, lent) {
        Ok(r) => {
            let mut table = [0u32; OBJECTS_LENGTH];
            gather(room, &mut table);
            call_tested(room, r, &table, session, pixels, masks, call)
        }
        Err(refusal) => u32::from(refusal.number()),
    }
}
