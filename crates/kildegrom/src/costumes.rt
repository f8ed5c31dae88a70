// A costume's animation: its start, its ticks, and what its limbs draw.
ghost use Rattle.std.specs.Prelude.{◌≡◌};
ghost use Rattle.costume.specs.Start.{started_of, start_bytes};
ghost use Rattle.limbs.specs.Limb.{drawn_of};
ghost use Rattle.limbs.specs.Tick.{tick_number, tick_bytes};
ghost use Rattle.answers.specs.Word.{started_word, drawn_word};

use answers::{number, word};
use costume::Started;

// Starts a costume's animation: the table of `count` offsets stands at payload byte `table`.
#[unsafe(no_mangle)]
pub extern "C" fn kg_start(
    payload: &[u8],
    limbs: &mut [u8],
    table: u32,
    count: u32,
    command: u32,
    chore: u32,
    direction: u32,
) -> u64
    ensures answer { result ≡ started_word (started_of payload.now limbs.old table count command chore direction) }
    ensures limbs_after { limbs.new ≡ start_bytes payload.now limbs.old table count command chore direction }
{
    let started = costume::start(payload, limbs, table, count, command, chore, direction);
    word(started.map(|started| u32::from(started == Started::Set)))
}

// One tick of all limbs.
#[unsafe(no_mangle)]
pub extern "C" fn kg_tick(payload: &[u8], limbs: &mut [u8], command: u32) -> u32
    ensures number { result ≡ tick_number payload.now limbs.old command }
    ensures limbs_after { limbs.new ≡ tick_bytes payload.now limbs.old command }
{
    number(limbs::tick(payload, limbs, command))
}

// Whether a limb draws, and its picture.
#[unsafe(no_mangle)]
pub extern "C" fn kg_limb_draws(limbs: &[u8], limb: u32) -> u64
    ensures { result ≡ drawn_word (drawn_of limbs.now limb) }
{
    let drawn = limbs::limb_draws(limbs, limb);
    word(drawn.map(|picture| picture.map_or(0, |picture| 256 + u32::from(picture))))
}
