// What a call is given, tested before anything is read or written: sizes (refusal 3), lengths of lent buffers (4), a point of the room (14).
ghost use Rattle.std.specs.Prelude.{◌≡◌, true, ◌&&◌};
ghost use Rattle.actor.specs.Sizes.{sizes_fit, picture_fits, mask_bytes, buffers_fit};
ghost use Rattle.actor.specs.Hidden.{hidden_number};
ghost use Rattle.actor.specs.Stamp.{stamp_number};
ghost use Rattle.refusal.specs.Answer.{answer_of};

use refusal::{Reason, Refusal};

// Whether a room's width, height and number of planes are inside the sizes.
#[tactic(auto, unfolding(crate::specs::Sizes::sizes_fit))]
pub fn sizes_fit(w: usize, h: usize, n: usize) -> bool
    ensures { result ≡ sizes_fit w h n }
{
    8 <= w && w <= 1024 && w % 8 == 0 && 1 <= h && h <= 200 && n <= 4
}

// Whether an actor picture's width and height are inside the sizes.
#[tactic(auto, unfolding(crate::specs::Sizes::picture_fits))]
pub fn picture_fits(width: usize, height: usize) -> bool
    ensures { result ≡ picture_fits width height }
{
    1 <= width && width <= 128 && 1 <= height && height <= 200
}

// How many bytes the masks of n planes take.
pub fn mask_bytes(w: usize, h: usize, n: usize) -> usize
    requires { sizes_fit w h n ≡ true }
    ensures { result ≡ mask_bytes w h n }
{
    n * (w / 8) * h
}

// Whether a frame, masks and a picture of these lengths hold what a stamp needs.
#[tactic(auto, unfolding(crate::specs::Sizes::buffers_fit))]
pub(crate) fn buffers_fit(
    frame: usize,
    masks: usize,
    picture: usize,
    w: usize,
    h: usize,
    n: usize,
    width: usize,
    height: usize,
) -> bool
    requires { (sizes_fit w h n && picture_fits width height) ≡ true }
    ensures { result ≡ buffers_fit frame masks picture w h n width height }
{
    w * h <= frame && mask_bytes(w, h, n) <= masks && width * height <= picture
}

// Tests the hidden-pixel question, by the length of the masks.
#[tactic(auto, unfolding(crate::specs::Hidden::hidden_number))]
pub(crate) fn check_hidden(
    masks: usize,
    w: usize,
    h: usize,
    n: usize,
    x: usize,
    y: usize,
) -> Result<(), Refusal>
    ensures { result ≡ answer_of (hidden_number masks w h n x y) }
{
    if !sizes_fit(w, h, n) {
        return Err(Reason::OutOfSize.into());
    }
    if masks < mask_bytes(w, h, n) {
        return Err(Reason::BufferShort.into());
    }
    if x >= w || y >= h {
        return Err(Reason::PointOutside.into());
    }
    Ok(())
}

// Tests a stamp, by the lengths of its buffers.
#[tactic(auto, unfolding(crate::specs::Stamp::stamp_number))]
pub(crate) fn check_stamp(
    frame: usize,
    masks: usize,
    picture: usize,
    w: usize,
    h: usize,
    n: usize,
    width: usize,
    height: usize,
) -> Result<(), Refusal>
    ensures { result ≡ answer_of (stamp_number frame masks picture w h n width height) }
{
    if !(sizes_fit(w, h, n) && picture_fits(width, height)) {
        return Err(Reason::OutOfSize.into());
    }
    if !buffers_fit(frame, masks, picture, w, h, n, width, height) {
        return Err(Reason::BufferShort.into());
    }
    Ok(())
}
