// The stamps of a cast, out of one buffer of pictures.
ghost use Rattle.std.specs.Prelude.{◌≡◌, drop};
ghost use Rattle.actor.specs.Stamp.{stamp_frame};
ghost use Rattle.cast.specs.Call.{stamp_all};

use crate::Actor;

// The picture is what stands in the buffer from the actor's start on; a start past the end leaves no picture, and the stamp refuses.
pub fn stamp_one(
    frame: &mut [u8],
    masks: &[u8],
    pictures: &[u8],
    a: Actor,
    w: u32,
    h: u32,
    n: u32,
    clear: u8,
)
    ensures { frame.new
        ≡ stamp_frame frame.old masks.now (drop a.start pictures.now) w h n a.width a.height clear a.left a.top
        a.clip }
{
    let picture = &pictures[pictures.len().min(a.start as usize)..];
    let _ = actor::stamp(
        frame, masks, picture, w, h, n, a.width, a.height, a.left, a.top, a.clip, clear,
    );
}

// The stamps of all records, one by one, in the order of the list.
pub fn stamp_all(
    list: &[Actor],
    frame: &mut [u8],
    masks: &[u8],
    pictures: &[u8],
    w: u32,
    h: u32,
    n: u32,
    clear: u8,
)
    ensures { frame.new ≡ stamp_all masks.now pictures.now w h n clear list.now frame.old }
{
    for a in list {
        stamp_one(frame, masks, pictures, *a, w, h, n, clear);
    }
}
