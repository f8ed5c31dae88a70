// An object's header: where its CDHD stands, what it says, and its 16 bytes for a lent buffer.
ghost use Rattle.std.specs.Prelude.{◌≡◌, ◌+◌, ◌≤◌, length};
ghost use Rattle.refusal.specs.Answer.{done};
ghost use Rattle.objects.specs.Object.{cdhd_at, cdhd_in, object_block, chosen_block, header_place, header_bytes, header_call, header_after};

use crate::Cdhd;
use crate::record::put_front;
use block::tags::{CDHD, OBCD};
use block::{need_tag, nth_tag};
use number::{read_le16, read_sle16, wide};
use refusal::{Reason, Refusal};
use room::Lent;
use room::test::{fixed_lent, test_room};

// What the CDHD whose payload is at `p` says.
pub fn read_cdhd(s: &[u8], p: usize) -> Cdhd
    requires { p + 13 ≤ length s.now }
    ensures { result ≡ cdhd_at s.now p }
{
    let id = read_le16(s, p);
    let x = wide(s[p + 2]);
    let y = wide(s[p + 3]);
    let width = wide(s[p + 4]);
    let height = wide(s[p + 5]);
    let flags = wide(s[p + 6]);
    let parent = wide(s[p + 7]);
    let walkx = read_sle16(s, p + 8);
    let walky = read_sle16(s, p + 10);
    let direction = wide(s[p + 12]);
    Cdhd {
        id,
        x,
        y,
        width,
        height,
        flags,
        parent,
        walkx,
        walky,
        direction,
    }
}

// The block of object `k`, counted from 1.
#[tactic(auto, unfolding(crate::specs::Object::object_block))]
pub fn object_block(s: &[u8], k: usize) -> Option<(usize, usize)>
    ensures { result ≡ object_block s.now k }
{
    if k == 0 {
        return None;
    }
    nth_tag(s, 8, s.len(), OBCD, k - 1)
}

// Where the CDHD payload of the OBCD in [b, z) stands.
pub fn cdhd_in(s: &[u8], b: usize, z: usize) -> Result<usize, Refusal>
    requires { (b + 8 ≤ z) × (z ≤ length s.now) }
    ensures { result ≡ cdhd_in s.now b z }
{
    let (p, _) = need_tag(s, b + 8, z, CDHD, 13).ok_or(Reason::BlockMissing)?;
    Ok(p)
}

// The block of object `k`, in a room that passes its test.
#[tactic(auto, unfolding(crate::specs::Object::chosen_block))]
pub fn chosen_block(s: &[u8], lent: Lent, k: usize) -> Result<(usize, usize), Refusal>
    ensures { result ≡ chosen_block lent s.now k }
{
    test_room(s, lent)?;
    object_block(s, k).ok_or(Reason::NoSuchObject.into())
}

// Where the CDHD payload of object `k` stands, or the refusal.
#[tactic(auto, unfolding(crate::specs::Object::header_place))]
pub fn header_place(s: &[u8], lent: Lent, k: usize) -> Result<usize, Refusal>
    ensures { result ≡ header_place lent s.now k }
{
    let (b, z) = chosen_block(s, lent, k)?;
    cdhd_in(s, b, z)
}

// The 16 bytes of the header whose CDHD payload is at `p`.
#[tactic(auto, using(crate::proofs::ObjectLaws::header_copied))]
pub fn header_bytes(s: &[u8], p: usize) -> [u8; 16]
    requires { p + 13 ≤ length s.now }
    ensures { result ≡ header_bytes s.now p }
{
    let mut bytes = [0; 16];
    bytes[..13].copy_from_slice(&s[p..p + 13]);
    bytes
}

// The header of object `object` into a lent buffer, or the refusal.
pub fn header_record(s: &[u8], out: &mut [u8], object: u32) -> Result<(), Refusal>
    ensures answer { result ≡ done (header_call s.now out.old object) }
    ensures header_after { out.new
        ≡ header_after s.now (header_call s.now out.old object) out.old }
{
    let p = header_place(s, fixed_lent(16, out.len()), object as usize)?;
    put_front(&header_bytes(s, p), out);
    Ok(())
}
