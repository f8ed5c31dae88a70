// The stamp of a picture once all sizes and lengths are known to be right: the part of the picture that lies in the frame, row by row.
ghost use Rattle.std.specs.Prelude.{◌≡◌, ◌*◌, ◌≤◌, ◌<◌, length};
ghost use Rattle.grid.specs.Grid.{upd, boxed, Inside};
ghost use Rattle.actor.specs.Stamp.{stamp_box, stamped};

use crate::corner::{Span, span_of};
use crate::mask::Masks;
use crate::row::stamp_row;

// An actor's picture; its pixels of the index `clear` are not stamped.
#[derive(Clone, Copy, Debug)]
pub struct Picture<'a> {
    pub pixels: &'a [u8],
    pub width: usize,
    pub height: usize,
    pub clear: u8,
    pub ghost narrow: { width ≤ 128 },
    pub ghost short: { height ≤ 200 },
    pub ghost all: { width * height ≤ length pixels.now },
}

// Stamps the part of a picture that its columns `across` and its rows `down` give.
pub(crate) fn stamp_box(
    frame: &mut [u8],
    masks: &Masks,
    picture: &Picture,
    across: Span,
    down: Span,
    clip: usize,
)
    requires in_frame { Inside (length frame.old) masks.now.w masks.now.h across.start down.start across.count down.count }
    requires in_picture { Inside (length picture.now.pixels.now) picture.now.width picture.now.height across.skip down.skip across.count down.count }
    ensures { frame.new
        ≡ upd (boxed masks.now.w across.start down.start across.count down.count
        (stamp_box masks.now.bytes.now picture.now.pixels.now masks.now.w masks.now.h masks.now.n picture.now.width picture.now.clear clip
        across down)) frame.old }
{
    for r in 0..down.count {
        let y = down.start + r;
        let from = (down.skip + r) * picture.width + across.skip;
        stamp_row(
            frame,
            masks,
            picture.pixels,
            across.start,
            y,
            from,
            across.count,
            picture.clear,
            clip,
        );
    }
}

// Stamps a picture, its corner at (x, y), on a frame of the masks' size.
pub(crate) fn stamp_picture(
    frame: &mut [u8],
    masks: &Masks,
    picture: &Picture,
    x: i32,
    y: i32,
    clip: usize,
)
    requires { (0 < masks.now.w) × (masks.now.w * masks.now.h ≤ length frame.old) }
    ensures { frame.new
        ≡ upd (stamped masks.now.bytes.now picture.now.pixels.now masks.now.w masks.now.h masks.now.n picture.now.width picture.now.height
        picture.now.clear x y clip) frame.old }
{
    let across = span_of(x, picture.width, masks.w);
    let down = span_of(y, picture.height, masks.h);
    if across.count == 0 || down.count == 0 {
        return;
    }
    stamp_box(frame, masks, picture, across, down, clip);
}
