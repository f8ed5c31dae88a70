// An actor in a room (document 01, "Actors, points, limbs", first paragraph): whether a pixel is hidden at a clip level, and the stamp of the
// actor's picture on a frame. Both calls test all that they are given, answer a refusal first, and write only then.
#![tactic(auto)]

mod corner;
mod mask;
mod picture;
mod row;
pub mod sizes;

ghost use Rattle.std.specs.Prelude.{◌≡◌, length};
ghost use Rattle.actor.specs.Hidden.{hidden_number, hidden_of, number};
ghost use Rattle.actor.specs.Stamp.{stamp_number, stamp_frame};
ghost use Rattle.refusal.specs.Answer.{answer_of};

use mask::Masks;
use picture::{Picture, stamp_picture};
use refusal::Refusal;
use sizes::{check_hidden, check_stamp};

// Whether an actor's pixel at (x, y) is hidden at a clip level, by the masks of n planes of a room of w by h.
#[tactic(auto, unfolding(crate::specs::Hidden::answered))]
pub fn hidden(
    masks: &[u8],
    w: u32,
    h: u32,
    n: u32,
    clip: u32,
    x: u32,
    y: u32,
) -> Result<bool, Refusal>
    ensures answer { result ≡ hidden_of masks.now w h n clip x y }
    ensures number { number result ≡ hidden_number (length masks.now) w h n x y }
{
    let w = w as usize;
    let h = h as usize;
    let n = n as usize;
    let x = x as usize;
    let y = y as usize;
    check_hidden(masks.len(), w, h, n, x, y)?;
    let masks = Masks {
        bytes: masks,
        w,
        h,
        n,
    };
    Ok(masks.hide(clip as usize, x, y))
}

// Stamps an actor's picture of width by height, its corner at (x, y), on a frame of w by h, behind the plane that the clip level names. The
// index `clear` is never written.
#[tactic(auto, unfolding(crate::specs::Stamp::stamp_frame))]
pub fn stamp(
    frame: &mut [u8],
    masks: &[u8],
    picture: &[u8],
    w: u32,
    h: u32,
    n: u32,
    width: u32,
    height: u32,
    x: i32,
    y: i32,
    clip: u32,
    clear: u8,
) -> Result<(), Refusal>
    ensures number { result ≡ answer_of (stamp_number (length frame.old) (length masks.now) (length picture.now) w h n width height) }
    ensures frame_after { frame.new ≡ stamp_frame frame.old masks.now picture.now w h n width height clear x y clip }
{
    let w = w as usize;
    let h = h as usize;
    let n = n as usize;
    let width = width as usize;
    let height = height as usize;
    check_stamp(
        frame.len(),
        masks.len(),
        picture.len(),
        w,
        h,
        n,
        width,
        height,
    )?;
    let masks = Masks {
        bytes: masks,
        w,
        h,
        n,
    };
    let picture = Picture {
        pixels: picture,
        width,
        height,
        clear,
    };
    stamp_picture(frame, &masks, &picture, x, y, clip as usize);
    Ok(())
}
