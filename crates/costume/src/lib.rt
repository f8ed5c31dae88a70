// The start of a costume's animation (document 01, "Actors, points, limbs"): the offset table, the record that it leads to, and the limbs that
// the record sets. The call tests all that it is given, answers a refusal first, and writes only then.
#![tactic(auto)]

mod record;
mod table;

ghost use Rattle.std.specs.Prelude.{◌≡◌};
ghost use Rattle.costume.specs.Start.{start_number, started_of, start_bytes, number};

use crate::record::begin_limbs;
use crate::table::{check_start, is_defined, offset_at};
use refusal::Refusal;

// What a record says of one limb.
#[derive(Clone, Copy, Debug, PartialEq, Eq)]
pub enum Entry {
    // The mask does not name the limb.
    Unnamed,
    // Its bytes are not all in the payload.
    Cut,
    // Start FFFF, which has no length byte.
    Idle,
    Window { start: usize, len: u8, noloop: u8 },
}

// What an accepted start does.
#[derive(Clone, Copy, Debug, PartialEq, Eq)]
pub enum Started {
    // The limbs that the record names are set.
    Set,
    // The animation is not defined, which is accepted and changes nothing.
    Undefined,
}

// Starts the animation of a chore for a facing: the table of count offsets stands at payload byte table.
#[tactic(auto, unfolding(crate::specs::Start::started_of, crate::specs::Start::start_bytes))]
pub fn start(
    payload: &[u8],
    limbs: &mut [u8],
    table: u32,
    count: u32,
    command: u32,
    chore: u32,
    direction: u32,
) -> Result<Started, Refusal>
    ensures answer { result ≡ started_of payload.now limbs.old table count command chore direction }
    ensures number { number result ≡ start_number payload.now limbs.old table count command chore direction }
    ensures bytes { limbs.new ≡ start_bytes payload.now limbs.old table count command chore direction }
{
    check_start(
        payload,
        &limbs[..],
        table,
        count,
        command as usize,
        chore,
        direction,
    )?;
    let offset = offset_at(payload, table, chore, direction);
    if !is_defined(payload, offset) {
        return Ok(Started::Undefined);
    }
    begin_limbs(payload, offset - 6, limbs);
    Ok(Started::Set)
}
