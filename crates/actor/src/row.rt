// One row of a picture over the frame, behind the plane that a clip level names. A row behind a plane goes by eight pixels at a time, wherever
// in a mask byte the first of them stands; `line` is where the plane's row begins in the masks.
ghost use Rattle.std.specs.Prelude.{◌≡◌, ◌||◌, cond, ◌+◌, ◌-◌, ◌*◌, ◌/◌, ◌%◌, ◌^◌, ◌≤◌, ◌<◌, eqb, length, get_or};
ghost use Rattle.grid.specs.Grid.{upd, rowed};
ghost use Rattle.actor.specs.Stamp.{blended};

use crate::mask::{Masks, window};
use cells::{eight, few, plain};

// The first 8 * count pixels of a row. Every eight of them have the same two places in their mask bytes, so the places are found once.
pub(crate) fn eights(
    frame: &mut [u8],
    masks: &[u8],
    picture: &[u8],
    w: usize,
    x: usize,
    y: usize,
    from: usize,
    line: usize,
    count: usize,
    clear: u8,
)
    requires in_row { (x + 8 * count ≤ w) × (y * w + (x + 8 * count) ≤ length frame.old) × (from + 8 * count ≤ length picture.now) }
    requires mask_row { (w % 8 ≡ 0) × (line + w / 8 ≤ length masks.now) }
    ensures { frame.new ≡ upd (rowed w x y (8 * count) (λ k o.
        cond (eqb (get_or picture.now (from + k) 0) clear
        || eqb (get_or masks.now (line + (x + k) / 8) 0 / 2 ^ (7 - (x + k) % 8) % 2) 1) o
        (get_or picture.now (from + k) 0))) frame.old }
{
    let s = x % 8;
    let first = line + x / 8;
    let last = line + (x + 7) / 8;
    for k in 0..count {
        let bits = window(masks, first + k, last + k, s);
        eight(frame, picture, w, x + 8 * k, y, from + 8 * k, clear, bits);
    }
}

// A row behind a plane: by eights, and what is left.
pub(crate) fn masked_row(
    frame: &mut [u8],
    masks: &[u8],
    picture: &[u8],
    w: usize,
    x: usize,
    y: usize,
    from: usize,
    line: usize,
    count: usize,
    clear: u8,
)
    requires in_row { (x + count ≤ w) × (y * w + (x + count) ≤ length frame.old) × (from + count ≤ length picture.now) }
    requires mask_row { (w % 8 ≡ 0) × (line + w / 8 ≤ length masks.now) }
    ensures { frame.new ≡ upd (rowed w x y count (λ k o.
        cond (eqb (get_or picture.now (from + k) 0) clear
        || eqb (get_or masks.now (line + (x + k) / 8) 0 / 2 ^ (7 - (x + k) % 8) % 2) 1) o
        (get_or picture.now (from + k) 0))) frame.old }
{
    let done = 8 * (count / 8);
    eights(frame, masks, picture, w, x, y, from, line, count / 8, clear);
    if done < count {
        let left = x + done;
        let last = line + (x + count - 1) / 8;
        let bits = window(masks, line + left / 8, last, left % 8);
        few(
            frame,
            picture,
            w,
            left,
            y,
            from + done,
            count - done,
            clear,
            bits,
        );
    }
}

// A row at any clip level.
pub(crate) fn stamp_row(
    frame: &mut [u8],
    masks: &Masks,
    picture: &[u8],
    x: usize,
    y: usize,
    from: usize,
    len: usize,
    clear: u8,
    clip: usize,
)
    requires in_row { (x + len ≤ masks.now.w) × (y * masks.now.w + (x + len) ≤ length frame.old) × (from + len ≤ length picture.now) }
    requires in_room { y < masks.now.h }
    ensures { frame.new ≡ upd (rowed masks.now.w x y len (λ k o.
        blended masks.now.bytes.now masks.now.w masks.now.h masks.now.n clear clip (x + k) y (get_or picture.now (from + k) 0) o)) frame.old }
{
    let w = masks.w;
    if clip < 1 || masks.n < clip {
        plain(frame, picture, w, x, y, from, len, clear);
        return;
    }
    let line = ((clip - 1) * masks.h + y) * (w / 8);
    masked_row(frame, masks.bytes, picture, w, x, y, from, line, len, clear);
}
