// Actors before and behind a room's planes.
ghost use Rattle.std.specs.Prelude.{◌≡◌, length};
ghost use Rattle.actor.specs.Hidden.{hidden_of};
ghost use Rattle.actor.specs.Stamp.{stamp_number, stamp_frame};
ghost use Rattle.answers.specs.Word.{hidden_word};

use answers::{number, word};

// Whether an actor's pixel at (x, y) is hidden at a clip level.
#[unsafe(no_mangle)]
pub extern "C" fn kg_hidden(masks: &[u8], w: u32, h: u32, n: u32, clip: u32, x: u32, y: u32) -> u64
    ensures { result ≡ hidden_word (hidden_of masks.now w h n clip x y) }
{
    word(actor::hidden(masks, w, h, n, clip, x, y).map(u32::from))
}

// Stamps an actor's picture, its corner at (x, y), behind the plane that the clip level names; the index `clear` is never written.
#[unsafe(no_mangle)]
pub extern "C" fn kg_stamp(
    frame: &mut [u8],
    masks: &[u8],
    picture: &[u8],
    w: u32,
    h: u32,
    n: u32,
    width: u32,
    height: u32,
    x: i32,
    y: i32,
    clip: u32,
    clear: u8,
) -> u32
    ensures number { result ≡ stamp_number (length frame.old) (length masks.now) (length picture.now) w h n width height }
    ensures frame_after { frame.new ≡ stamp_frame frame.old masks.now picture.now w h n width height clear x y clip }
{
    number(actor::stamp(
        frame, masks, picture, w, h, n, width, height, x, y, clip, clear,
    ))
}
