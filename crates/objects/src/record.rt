// The room's record, in lent bytes.
ghost use Rattle.std.specs.Prelude.{◌≡◌, ◌≤◌, length};
ghost use Rattle.number.specs.Buffer.{over};
ghost use Rattle.refusal.specs.Answer.{done};
ghost use Rattle.objects.specs.Record.{record_bytes, record_test, record_after};

use number::put_le16;
use refusal::Refusal;
use room::Room;
use room::test::{fixed_lent, test_room};

// `src` over the front of `out`.
#[tactic(auto, using(std::proofs::lemmas::Slice::overwrites), unfolding(number::specs::Buffer::over))]
pub fn put_front(src: &[u8], out: &mut [u8])
    requires { length src.now ≤ length out.old }
    ensures { out.new ≡ over src.now out.old }
{
    out[..src.len()].copy_from_slice(src);
}

// The 16 bytes of the record.
#[tactic(auto, unfolding(crate::specs::Record::record_bytes, number::specs::Number::le16_bytes))]
pub fn record_bytes(r: Room) -> [u8; 16]
    ensures { result ≡ record_bytes r }
{
    let mut bytes = [0; 16];
    put_le16(&mut bytes, 0, r.width);
    put_le16(&mut bytes, 2, r.height);
    put_le16(&mut bytes, 4, r.planes);
    put_le16(&mut bytes, 6, r.objects);
    bytes[8] = r.clear;
    bytes
}

// The record of a room into a lent buffer, or the refusal.
pub fn record(s: &[u8], out: &mut [u8]) -> Result<(), Refusal>
    ensures answer { result ≡ done (record_test s.now out.old) }
    ensures record_after { out.new ≡ record_after (record_test s.now out.old) out.old }
{
    let room = test_room(s, fixed_lent(16, out.len()))?;
    put_front(&record_bytes(room), out);
    Ok(())
}
