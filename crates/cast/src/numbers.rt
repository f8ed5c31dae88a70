// The tests of a call, before anything is moved or painted: 18, 3 and 4 (change request 7).
ghost use Rattle.std.specs.Prelude.{◌≡◌};
ghost use Rattle.cast.specs.Call.{record_number, first_bad, frame_number, cast_number};
ghost use Rattle.refusal.specs.Answer.{answer_of};

use crate::Actor;
use actor::sizes::{mask_bytes, picture_fits, sizes_fit};
use refusal::{Reason, Refusal};

// Tests a record: its size before its buffer.
#[tactic(auto, unfolding(crate::specs::Call::record_number))]
pub fn check_record(a: Actor, pictures: usize) -> Result<(), Refusal>
    ensures { result ≡ answer_of (record_number pictures a) }
{
    let width = a.width as usize;
    let height = a.height as usize;
    if !picture_fits(width, height) {
        return Err(Reason::OutOfSize.into());
    }
    if pictures < a.start as usize + width * height {
        return Err(Reason::BufferShort.into());
    }
    Ok(())
}

// Tests the records in the order of the list: the first bad one refuses the call.
#[tactic(auto, using(crate::proofs::NumberLaws::bad_turn))]
pub fn check_records(list: &[Actor], pictures: usize) -> Result<(), Refusal>
    ensures { result ≡ answer_of (first_bad pictures list.now) }
{
    for a in list {
        check_record(*a, pictures)?;
    }
    Ok(())
}

// Tests a frame and the masks of n planes, by their lengths.
#[tactic(auto, unfolding(crate::specs::Call::frame_number))]
pub fn check_frame(frame: usize, masks: usize, w: usize, h: usize, n: usize) -> Result<(), Refusal>
    ensures { result ≡ answer_of (frame_number frame masks w h n) }
{
    if !sizes_fit(w, h, n) {
        return Err(Reason::OutOfSize.into());
    }
    if frame < w * h || masks < mask_bytes(w, h, n) {
        return Err(Reason::BufferShort.into());
    }
    Ok(())
}

// Tests a call: its count of records, its frame and its planes, and then each record.
#[tactic(auto, unfolding(crate::specs::Call::cast_number))]
pub fn check_cast(
    list: &[Actor],
    frame: usize,
    masks: usize,
    pictures: usize,
    w: u32,
    h: u32,
    n: u32,
) -> Result<(), Refusal>
    ensures { result ≡ answer_of (cast_number list.now frame masks pictures w h n) }
{
    if 32 < list.len() {
        return Err(Reason::CastTooLarge.into());
    }
    check_frame(frame, masks, w as usize, h as usize, n as usize)?;
    check_records(list, pictures)
}
