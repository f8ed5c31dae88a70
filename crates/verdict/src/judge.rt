// The verdicts of the images that a history and a step draw: 11 where an object has no image of the state, else 0 or the image's own
// refusal. Each image is tested once, however often it is drawn.
ghost use Rattle.std.specs.Prelude.{◌≡◌, List, ◌∷◌, ◌≤◌, length};
ghost use Rattle.image.specs.Image.{object_count};
ghost use Rattle.layers.specs.Decoded.{decoded};
ghost use Rattle.layers.specs.Ready as spec;
ghost use Rattle.scene.specs.declared.Place as place;
ghost use Rattle.scene.specs.declared.Step as steps;
ghost use Rattle.scene.specs.declared.Step.TheVariants as variants;
ghost use Rattle.stored.specs.Bytes.{readable};
ghost use Rattle.stored.specs.Layout.{session_size};
ghost use Rattle.replay.specs.Tables.{TablesAgree, asked_by, verdicts_length};
ghost use Rattle.verdict.specs.Size.{size_of};
ghost use Rattle.verdict.specs.Verdict.{Right, Judged};

use image::state::{image_drawable, state_block};
use image::test::test_image;
use layers::Ready;
use number::buffer::fill;
use number::wide_u32;
use replay::VERDICTS_LENGTH;
use room::Room;
use scene::{Call, MOST_STEPS, Step};
use stored::bytes::{count, step_at};

// What a cell holds before its image is judged: no verdict is 255.
const UNKNOWN: u8 = 255;

// The verdict of object o in state s. An image larger than the room is not tested: a draw of it is refused with 12 before.
fn verdict_of(ready: Ready<'_>, o: usize, s: usize) -> u8
    requires { (1 ≤ o) × (o ≤ ready.room.objects) × (s ≤ 9) }
    ensures { Right ready.entry.bytes.now ready.entry.room o s result }
{
    let Ready { bytes, room, table } = ready;
    if !image_drawable(bytes, table, room.objects, o, s) {
        return 11;
    }
    let width = wide_u32(table[8 * o + 3]);
    let height = wide_u32(table[8 * o + 4]);
    if room.width < width || room.height < height {
        return 0;
    }
    let (b, z) = state_block(bytes, table, o, s).unwrap();
    match test_image(bytes, b + 8, z, width / 8, height, room.planes) {
        Ok(()) => 0,
        Err(refusal) => refusal.number(),
    }
}

// The verdict of object o in state s is put into its cell, if it has one and is not judged yet.
fn judge_image(ready: Ready<'_>, o: usize, s: usize, verdicts: &mut [u8])
    requires { verdicts_length ≤ length verdicts.old }
    ensures { (p : place.Place) (h : List steps.Step) → Judged ready.entry.bytes.now ready.entry.room verdicts.old h
        → Judged ready.entry.bytes.now ready.entry.room verdicts.new (variants.Draw o s p ∷ h) }
{
    if o == 0 || ready.room.objects < o || s == 0 || 9 < s {
        return;
    }
    let at = 10 * o + s;
    if verdicts[at] == UNKNOWN {
        verdicts[at] = verdict_of(ready, o, s);
    }
}

// The verdict of the image that a step draws.
fn judge_step(ready: Ready<'_>, step: Step, verdicts: &mut [u8])
    requires { verdicts_length ≤ length verdicts.old }
    ensures { (h : List steps.Step) → Judged ready.entry.bytes.now ready.entry.room verdicts.old h
        → Judged ready.entry.bytes.now ready.entry.room verdicts.new (step ∷ h) }
{
    match step {
        Step::Draw(object, state, _) => {
            judge_image(ready, wide_u32(object), wide_u32(state), verdicts);
        }
        Step::Hide(_) => {}
    }
}

// The verdicts of the images that the session's history draws, in a table that holds no others.
fn judge_steps(ready: Ready<'_>, session: &[u8], verdicts: &mut [u8])
    requires { (session_size ≤ length session.now) × (verdicts_length ≤ length verdicts.old) }
    ensures { Judged ready.entry.bytes.now ready.entry.room verdicts.new (readable session.now) }
{
    fill(verdicts, 0, VERDICTS_LENGTH, UNKNOWN);
    let n = count(session[0]);
    if MOST_STEPS < n {
        return;
    }
    for i in 0..n {
        judge_step(ready, step_at(session, i), verdicts);
    }
}

// The verdicts of the images that the session's history draws.
pub fn judge_history(room: &[u8], r: Room, table: &[u32], session: &[u8], verdicts: &mut [u8])
    requires ready { spec.Ready room.now r table.now × (r.objects ≡ object_count room.now) }
    requires session_and_verdicts_fit { (session_size ≤ length session.now) × (verdicts_length ≤ length verdicts.old) }
    ensures { TablesAgree (decoded room.now r) table.now verdicts.new (size_of r)
        (readable session.now) }
{
    judge_steps(
        Ready {
            bytes: room,
            room: r,
            table,
        },
        session,
        verdicts,
    );
}

// The verdicts of the images that the session's history and the call draw.
pub fn judge(room: &[u8], r: Room, table: &[u32], session: &[u8], call: Call, verdicts: &mut [u8])
    requires ready { spec.Ready room.now r table.now × (r.objects ≡ object_count room.now) }
    requires session_and_verdicts_fit { (session_size ≤ length session.now) × (verdicts_length ≤ length verdicts.old) }
    ensures { TablesAgree (decoded room.now r) table.now verdicts.new (size_of r)
        (asked_by call (readable session.now)) }
{
    let ready = Ready {
        bytes: room,
        room: r,
        table,
    };
    judge_steps(ready, session, verdicts);
    match call {
        Call::Make(step) => judge_step(ready, step, verdicts),
        Call::TakeBack => {}
    }
}
