// From the numbers of a call to its record: the offset table, and every test that a start makes before it writes.
ghost use Rattle.std.specs.Prelude.{◌≡◌, false, ◌+◌, ◌-◌, ◌*◌, ◌<◌, ◌≤◌, length};
ghost use Rattle.costume.specs.Start.{no_record, offset_at, numbers_right, offset_right, defined, start_number};
ghost use Rattle.refusal.specs.Answer.{answer_of};

use crate::record::record_right;
use limbs::bytes::limbs_right;
use limbs::ticking::command_right;
use number::read_le16;
use refusal::{Reason, Refusal};

// Whether chore and direction name a record of a table that lies in the payload.
#[tactic(auto, unfolding(crate::specs::Start::numbers_right))]
fn numbers_right(payload: &[u8], table: u32, count: u32, chore: u32, direction: u32) -> bool
    ensures { result ≡ numbers_right payload.now table count chore direction }
{
    chore <= 243
        && direction <= 3
        && 4 * chore + direction < count
        && (table as usize) + 2 * (count as usize) <= payload.len()
}

// The offset that the table stores for the record.
pub(crate) fn offset_at(payload: &[u8], table: u32, chore: u32, direction: u32) -> usize
    requires { table + 2 * (4 * chore + direction) + 2 ≤ length payload.now }
    ensures { (result ≡ offset_at payload.now table chore direction) × (result < 65536) }
{
    let number = 4 * (chore as usize) + (direction as usize);
    read_le16(payload, (table as usize) + 2 * number)
}

// Whether a stored offset stands for no record or for one that is right.
#[tactic(auto, unfolding(crate::specs::Start::offset_right))]
fn offset_right(payload: &[u8], offset: usize, n: usize) -> bool
    requires { offset < 65536 }
    ensures { result ≡ offset_right payload.now offset n }
{
    matches!(offset, 0 | 0xFFFF) || (6 <= offset && record_right(payload, offset - 6, n))
}

// Tests a start, before any byte is written.
#[tactic(auto, using(crate::proofs::StartLaws::test_laws), unfolding(crate::specs::Start::start_number))]
pub(crate) fn check_start(
    payload: &[u8],
    limbs: &[u8],
    table: u32,
    count: u32,
    command: usize,
    chore: u32,
    direction: u32,
) -> Result<(), Refusal>
    ensures { result ≡ answer_of (start_number payload.now limbs.now table count command chore direction) }
{
    if limbs.len() < 256 {
        return Err(Reason::BufferShort.into());
    }
    if !numbers_right(payload, table, count, chore, direction) || !command_right(payload, command) {
        return Err(Reason::AnimationWrong.into());
    }
    let offset = offset_at(payload, table, chore, direction);
    let n = payload.len() - (command - 6);
    if !limbs_right(limbs, n) || !offset_right(payload, offset, n) {
        return Err(Reason::AnimationWrong.into());
    }
    Ok(())
}

// Whether the animation at a right offset is defined.
#[tactic(auto, unfolding(crate::specs::Start::defined))]
pub(crate) fn is_defined(payload: &[u8], offset: usize) -> bool
    requires { no_record offset ≡ false → (6 ≤ offset) × (offset - 6 + 2 ≤ length payload.now) }
    ensures { result ≡ defined payload.now offset }
{
    !matches!(offset, 0 | 0xFFFF) && read_le16(payload, offset - 6) != 0
}
