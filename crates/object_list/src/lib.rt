// A room's listing in one test: its record, and for each object a row with its header, where its name stands and which of its states can be drawn
// (docs/LAYOUTS.md). The objects' blocks are walked once, and their images are asked of crate image's table.
#![tactic(auto)]

pub mod row;
pub mod states;

ghost use Rattle.std.specs.Prelude.{◌≡◌, ◌*◌, ◌≤◌, length};
ghost use Rattle.number.specs.Buffer.{over};
ghost use Rattle.refusal.specs.Answer.{done};
ghost use Rattle.objects.specs.Record.{record_after};
ghost use Rattle.image.specs.Image.{object_count};
ghost use Rattle.image.specs.Gathered.{Gathered};
ghost use Rattle.object_list.specs.List.{rows_to, list_test, rows_after};

use crate::row::put_row;
use crate::states::state_bits;
use block::find_tag;
use block::tags::OBCD;
use image::gather::gather;
use objects::record::{put_front, record_bytes};
use refusal::Refusal;
use room::test::{flags_lent, test_room};

// The rows of all objects, in one walk over ROOM's blocks.
fn put_rows(room: &[u8], table: &[u32], objects: usize, rows: &mut [u8])
    requires { Gathered room.now table.now × (objects ≡ object_count room.now) × (32 * objects ≤ length rows.old) }
    ensures { rows.new ≡ over (rows_to room.now objects) rows.old }
{
    let end = room.len();
    let mut at: usize = 8;
    let mut n: usize = 0;

    // No `for`: the step is a block's length.
    while let Some((b, z)) = find_tag(room, at, end, OBCD) {
        let states = state_bits(room, table, objects, n + 1);
        put_row(room, b, z, states, rows, 32 * n);
        n += 1;
        at = z;
    }
}

// The rows of a room with `objects` objects.
fn list_rows(room: &[u8], objects: usize, rows: &mut [u8])
    requires { (length room.now ≤ 1048576) × (objects ≤ 128) × (objects ≡ object_count room.now) × (32 * objects ≤ length rows.old) }
    ensures { rows.new ≡ over (rows_to room.now objects) rows.old }
{
    let mut table = [0u32; 1032];
    gather(room, &mut table);
    put_rows(room, &table, objects, rows);
}

// The listing of a room, its record into `out`, or the refusal.
pub fn list(room: &[u8], out: &mut [u8], rows: &mut [u8]) -> Result<(), Refusal>
    ensures answer { result ≡ done (list_test room.now out.old rows.old) }
    ensures record_after { out.new
        ≡ record_after (list_test room.now out.old rows.old) out.old }
    ensures rows_after { rows.new
        ≡ rows_after room.now (list_test room.now out.old rows.old) rows.old }
{
    let tested = test_room(room, flags_lent(16, out.len(), rows.len() / 32))?;
    put_front(&record_bytes(tested), out);
    list_rows(room, tested.objects, rows);
    Ok(())
}
