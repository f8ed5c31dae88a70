// A draw, a hide or a take-back on a room that passes its test.
ghost use Rattle.std.specs.Prelude.{◌≡◌, ◌*◌, ◌≤◌, length, Ok};
ghost use Rattle.room.specs.Test.{strips};
ghost use Rattle.image.specs.Image.{object_count};
ghost use Rattle.stored.specs.Layout.{session_size};
ghost use Rattle.layers.specs.Ready.{Ready};
ghost use Rattle.play.specs.Bytes.{lent, number_by, after_by};

use crate::flat::flatten;
use repaint::rebuild;
use replay::VERDICTS_LENGTH;
use room::Room;
use scene::Call;
use session::plan::plan;
use stored::bytes::{store_history, store_shown};
use verdict::judge::judge;
use verdict::size::size_of;

// The call's number: everything is judged and planned before anything is written.
pub fn call_tested(
    room: &[u8],
    r: Room,
    table: &[u32],
    session: &mut [u8],
    pixels: &mut [u8],
    masks: &mut [u8],
    call: Call,
) -> u32
    requires ready_with_session { Ready room.now r table.now × (r.objects ≡ object_count room.now) × (session_size ≤ length session.old) }
    requires surfaces_fit { (r.width * r.height ≤ length pixels.old) × (strips r * (r.planes * r.height) ≤ length masks.old) }
    ensures number { result
        ≡ number_by room.now (lent session.old pixels.old masks.old) call (Ok r) }
    ensures lent_after { lent session.new pixels.new masks.new
        ≡ after_by room.now (lent session.old pixels.old masks.old) call (Ok r) }
{
    let mut verdicts = [0u8; VERDICTS_LENGTH];
    judge(room, r, table, &session[..], call, &mut verdicts);
    let size = size_of(r);
    let mut strips = [0u8; 128];
    let after = plan(&session[..], table, &verdicts, size, call, &mut strips);
    if after.refusal != 0 {
        return u32::from(after.refusal);
    }
    let mut shown = [0u32; 256];
    flatten(after, &mut shown);
    store_history(session, call);
    store_shown(session, after);
    rebuild(room, r, table, &shown, after.n, &strips, pixels, masks);
    0
}
