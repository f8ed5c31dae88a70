// A tick of the limbs: what a byte of the stream does to its limb, and where the place goes then.
ghost use Rattle.std.specs.Prelude.{◌≡◌, true, ◌+◌, ◌-◌, ◌^◌, ◌<◌, ◌≤◌, length, drop};
ghost use Rattle.limbs.specs.Limb.{each_limb, limb_right, limbs_right};
ghost use Rattle.limbs.specs.Tick.{command_right, obeyed, moved_on, ticked_limb, tick_number};
ghost use Rattle.refusal.specs.Answer.{answer_of};

use crate::Limb;
use crate::bytes::{limb_at, limbs_right, put_limb};
use refusal::{Reason, Refusal};

// What a byte of the stream does to its limb.
#[tactic(auto, unfolding(crate::specs::Tick::obeyed))]
fn obey(byte: u8, limb: Limb) -> Limb
    ensures { result ≡ obeyed byte limb }
{
    match byte {
        0x79 => Limb { stopped: 1, ..limb },
        0x7A => Limb { stopped: 0, ..limb },
        0x71..=0x7C => limb,
        picture => Limb {
            shows: 1,
            picture,
            ..limb
        },
    }
}

// The place after a tick.
#[tactic(auto, unfolding(crate::specs::Tick::moved_on))]
fn move_on(limb: Limb) -> Limb
    requires { (limb.place < limb.start + limb.len) × (limb.start + limb.len < 2 ^ 63) }
    ensures { result ≡ moved_on limb }
{
    let next = limb.place + 1;
    if next < limb.start + usize::from(limb.len) {
        Limb {
            place: next,
            ..limb
        }
    } else if limb.noloop != 0 {
        limb
    } else {
        Limb {
            place: limb.start,
            ..limb
        }
    }
}

// A tick of one limb, whose stream starts at payload byte `from`.
fn tick_limb(payload: &[u8], from: usize, limb: Limb) -> Limb
    requires { (from ≤ length payload.now) × (limb_right (length payload.now - from) limb ≡ true) }
    ensures { result ≡ ticked_limb (drop from payload.now) limb }
{
    if limb.active == 0 {
        return limb;
    }
    move_on(obey(payload[from + limb.place], limb))
}

// A tick of every limb; all have been tested.
pub(crate) fn tick_limbs(payload: &[u8], from: usize, limbs: &mut [u8])
    requires { (from ≤ length payload.now) × (256 ≤ length limbs.old) × (limbs_right (length payload.now - from) limbs.old ≡ true) }
    ensures { limbs.new ≡ each_limb (λ i. ticked_limb (drop from payload.now)) 16 limbs.old }
{
    for i in 0..16 {
        let limb = limb_at(&limbs[..], i);
        put_limb(limbs, i, tick_limb(payload, from, limb));
    }
}

// Whether a stored command offset names a stream of the payload, be it an empty one.
pub fn command_right(payload: &[u8], command: usize) -> bool
    ensures { result ≡ command_right payload.now command }
{
    6 <= command && command - 6 <= payload.len()
}

// Tests a tick, before any byte is written.
#[tactic(auto, using(crate::proofs::TickLaws::stream_length), unfolding(crate::specs::Tick::tick_number))]
pub(crate) fn check_tick(payload: &[u8], limbs: &[u8], command: usize) -> Result<(), Refusal>
    ensures { result ≡ answer_of (tick_number payload.now limbs.now command) }
{
    if limbs.len() < 256 {
        return Err(Reason::BufferShort.into());
    }
    if !command_right(payload, command) || !limbs_right(limbs, payload.len() - (command - 6)) {
        return Err(Reason::AnimationWrong.into());
    }
    Ok(())
}
