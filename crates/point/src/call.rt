// The point question on any bytes: the room's own refusals first, 1 to 8 with 4, then 9 and 14.
ghost use Rattle.std.specs.Prelude.{◌≡◌, ◌≤◌, length, Ok};
ghost use Rattle.image.specs.Image.{object_count};
ghost use Rattle.layers.specs.Ready.{Ready};
ghost use Rattle.stored.specs.Bytes.{entries};
ghost use Rattle.stored.specs.Layout.{session_size, most_shown};
ghost use Rattle.replay.specs.Places.{scene_in};
ghost use Rattle.replay.specs.Tables.{Sizes, places_length};
ghost use Rattle.point.specs.Objects.{objects_of};
ghost use Rattle.point.specs.Point.{object_at};
ghost use Rattle.point.specs.Call.{found, asked, pointed_at};

use crate::hit::lowest_hit;
use climb::states::fill_states;
use image::gather::{gather, list_objects};
use number::wide_u32;
use refusal::{Reason, Refusal};
use replay::{OBJECTS_LENGTH, PLACES_LENGTH, Size, VERDICTS_LENGTH};
use room::Room;
use room::test::{flags_lent, test_room};
use session::plan::valid_shown;
use stored::{SESSION_SIZE, Shown};
use verdict::judge::judge_history;
use verdict::size::size_of;

// The object under a point of the room, with the shown list and the last places of a session that is right.
fn seek(
    room: &[u8],
    places: &[u32],
    flags: &[u8],
    size: Size,
    shown: Shown,
    x: usize,
    y: usize,
) -> Option<u32>
    requires size_right { (size.count ≡ object_count room.now) × Sizes size × (size.count ≤ length flags.now) }
    requires places_fit { (places_length ≤ length places.now) × (shown.n ≤ most_shown) }
    ensures { Ok result ≡ found (object_at (objects_of room.now) (scene_in places.now (entries shown)) flags.now x y) }
{
    let mut boxes = [0u32; OBJECTS_LENGTH];
    list_objects(room, true, &mut boxes);
    let mut states = [0u32; 129];
    fill_states(shown, &mut states);
    lowest_hit(&boxes, &states, places, flags, size, x, y)
}

// The question on a room that passes its test.
fn ask(
    room: &[u8],
    r: Room,
    table: &[u32],
    session: &[u8],
    flags: &[u8],
    x: u32,
    y: u32,
) -> Result<Option<u32>, Refusal>
    requires ready { Ready room.now r table.now × (r.objects ≡ object_count room.now) }
    requires session_and_flags_fit { (session_size ≤ length session.now) × (r.objects ≤ length flags.now) }
    ensures { result ≡ asked room.now r session.now flags.now x y }
{
    let mut verdicts = [0u8; VERDICTS_LENGTH];
    judge_history(room, r, table, session, &mut verdicts);
    let size = size_of(r);
    let mut places = [0u32; PLACES_LENGTH];
    let shown = valid_shown(session, table, &verdicts, size, &mut places);
    if shown.refusal != 0 {
        return Err(Reason::OtherSession.into());
    }
    let px = wide_u32(x);
    let py = wide_u32(y);
    if r.width <= px || r.height <= py {
        return Err(Reason::PointOutside.into());
    }
    Ok(seek(room, &places, flags, size, shown, px, py))
}

// The object under a point.
pub fn object_at(
    room: &[u8],
    session: &[u8],
    flags: &[u8],
    x: u32,
    y: u32,
) -> Result<Option<u32>, Refusal>
    ensures { result ≡ pointed_at room.now session.now flags.now x y }
{
    let lent = flags_lent(SESSION_SIZE, session.len(), flags.len());
    let r = test_room(room, lent)?;
    let mut table = [0u32; OBJECTS_LENGTH];
    gather(room, &mut table);
    ask(room, r, &table, session, flags, x, y)
}
