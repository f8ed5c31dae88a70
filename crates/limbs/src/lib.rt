// The 16 limbs of a costume (document 01, "Actors, points, limbs"): their lent bytes, 16 to a limb, a tick of them, and whether a limb draws.
// Each call tests all that it is given, answers a refusal first, and writes only then.
#![tactic(auto)]

pub mod bytes;
pub mod ticking;

ghost use Rattle.std.specs.Prelude.{◌≡◌};
ghost use Rattle.limbs.specs.Limb.{drawn_of, draws_number, number};
ghost use Rattle.limbs.specs.Tick.{tick_number, tick_bytes};
ghost use Rattle.refusal.specs.Answer.{answer_of};

use crate::bytes::{draw, limb_at, limbs_right};
use crate::ticking::{check_tick, tick_limbs};
use refusal::{Reason, Refusal};

// A limb as its bytes give it; start and place are indexes into the command stream.
#[derive(Clone, Copy, Debug, PartialEq, Eq)]
pub struct Limb {
    pub active: u8,
    pub stopped: u8,
    pub noloop: u8,
    pub shows: u8,
    pub picture: u8,
    pub len: u8,
    pub start: usize,
    pub place: usize,
}

// A stream of this many bytes holds every window: a start is a u32, and a length at most 128. The question whether a limb draws has no stream.
const EVERY_WINDOW: usize = 4294967423;

// One tick of all limbs, unless it is refused with 4 or 15.
#[tactic(auto, unfolding(crate::specs::Tick::tick_bytes))]
pub fn tick(payload: &[u8], limbs: &mut [u8], command: u32) -> Result<(), Refusal>
    ensures number { result ≡ answer_of (tick_number payload.now limbs.old command) }
    ensures bytes { limbs.new ≡ tick_bytes payload.now limbs.old command }
{
    let v = command as usize;
    check_tick(payload, &limbs[..], v)?;
    tick_limbs(payload, v - 6, limbs);
    Ok(())
}

// The question whether a limb draws, and which picture, as a host asks it: 4 for too few bytes, then 15 for a limb number above 15 or a limb whose
// length or place is wrong.
#[tactic(auto, using(crate::proofs::DrawLaws::draws_laws), unfolding(crate::specs::Limb::drawn_of, crate::specs::Limb::draws_number))]
pub fn limb_draws(limbs: &[u8], limb: u32) -> Result<Option<u8>, Refusal>
    ensures answer { result ≡ drawn_of limbs.now limb }
    ensures number { number result ≡ draws_number limbs.now limb }
{
    if limbs.len() < 256 {
        return Err(Reason::BufferShort.into());
    }
    if 15 < limb || !limbs_right(limbs, EVERY_WINDOW) {
        return Err(Reason::AnimationWrong.into());
    }
    Ok(draw(limb_at(limbs, limb as usize)))
}
