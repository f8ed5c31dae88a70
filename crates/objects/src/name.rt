// An object's name, as a part of the lent room bytes.
ghost use Rattle.std.specs.Prelude.{◌≡◌, ◌+◌, ◌-◌, ◌≤◌, length};
ghost use Rattle.refusal.specs.Answer.{answer_of};
ghost use Rattle.objects.specs.Name.{nul_from, name_in, name_place, part_at, name_of, place_word, name_number};

use crate::Part;
use crate::object::chosen_block;
use block::need_tag;
use block::tags::OBNA;
use refusal::Refusal;
use room::test::nothing_lent;

// The first NUL of [p, z), or z.
fn nul_from(s: &[u8], p: usize, z: usize) -> usize
    requires { (p ≤ z) × (z ≤ length s.now) }
    ensures { result ≡ nul_from (z - p) s.now p }
{
    for i in p..z {
        if s[i] == 0 {
            return i;
        }
    }
    z
}

// Where the name of the object in the OBCD [b, z) stands.
#[tactic(auto, unfolding(crate::specs::Name::name_in, crate::specs::Name::before_nul))]
fn name_in(s: &[u8], b: usize, z: usize) -> Option<(usize, usize)>
    requires { (b + 8 ≤ z) × (z ≤ length s.now) }
    ensures { result ≡ name_in s.now b z }
{
    let (start, end) = need_tag(s, b + 8, z, OBNA, 0)?;
    Some((start, nul_from(s, start, end)))
}

// The part of the room that is the name of the object in the OBCD [b, z); empty where there is none.
pub fn part_in(s: &[u8], b: usize, z: usize) -> Part
    requires { (b + 8 ≤ z) × (z ≤ length s.now) }
    ensures { (result ≡ part_at (name_in s.now b z)) × (result.start + result.count ≤ length s.now) }
{
    match name_in(s, b, z) {
        Some((start, end)) => Part {
            start,
            count: end - start,
        },
        None => Part { start: 0, count: 0 },
    }
}

// The part that is the name of object `object`, counted from 1; empty where there is none or the call is refused.
#[tactic(auto, unfolding(crate::specs::Name::name_place))]
fn name_part(s: &[u8], object: u32) -> Part
    ensures part { result ≡ part_at (name_place s.now object) }
    ensures in_room { (result.start + result.count ≤ length s.now) × (result.start + result.count ≤ 1048576) }
{
    match chosen_block(s, nothing_lent(), object as usize) {
        Ok((b, z)) => part_in(s, b, z),
        Err(_) => Part { start: 0, count: 0 },
    }
}

// The name of object `object`.
pub fn name(s: &[u8], object: u32) -> &[u8]
    ensures { result.now ≡ name_of s.now object }
{
    let part = name_part(s, object);
    let start = part.start;
    let end = start + part.count;
    &s[start..end]
}

// Where that part stands, as one number: its start, and its length above 32 bits.
pub fn name_word(s: &[u8], object: u32) -> u64
    ensures { result ≡ place_word (name_place s.now object) }
{
    let part = name_part(s, object);
    (part.start + part.count * 4294967296) as u64
}

// Whether a call for the name of object `object` is accepted, or the refusal.
#[tactic(auto, unfolding(crate::specs::Name::name_number))]
pub fn name_number(s: &[u8], object: u32) -> Result<(), Refusal>
    ensures { result ≡ answer_of (name_number s.now object) }
{
    chosen_block(s, nothing_lent(), object as usize)?;
    Ok(())
}
