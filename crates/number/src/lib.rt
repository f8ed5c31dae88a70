// Numbers in a slice of bytes (document 01: u16 and u32 little-endian, block sizes big-endian, walk points signed): loads and stores of them.
#![tactic(auto)]

pub mod buffer;

ghost use Rattle.std.specs.Prelude.{◌≡◌, ◌+◌, ◌≤◌, ◌<◌, length};
ghost use Rattle.std.proofs.lemmas.List.Edits.{sets};
ghost use Rattle.number.specs.Number.{be32, le16, le32, sle16, le16_bytes, le32_bytes, be32_bytes, wide_of, ahead, behind};

// A byte at a wider type.
pub fn wide(x: u8) -> usize
    ensures { wide_of x result }
{
    usize::from(x)
}

// Wider numbers at the widest type.
pub fn wide_u16(x: u16) -> usize
    ensures { (result ≡ x) × (result < 65536) }
{
    usize::from(x)
}

pub fn wide_u32(x: u32) -> usize
    ensures { (result ≡ x) × (result < 4294967296) }
{
    x as usize
}

pub fn read_be32(s: &[u8], at: usize) -> usize
    requires { at + 4 ≤ length s.now }
    ensures { result ≡ be32 s.now at }
{
    u32::from_be_bytes([s[at], s[at + 1], s[at + 2], s[at + 3]]) as usize
}

pub fn read_le16(s: &[u8], at: usize) -> usize
    requires { at + 2 ≤ length s.now }
    ensures { (result ≡ le16 s.now at) × (result < 65536) }
{
    usize::from(u16::from_le_bytes([s[at], s[at + 1]]))
}

pub fn read_sle16(s: &[u8], at: usize) -> i32
    requires { at + 2 ≤ length s.now }
    ensures { result ≡ sle16 s.now at }
{
    i32::from(i16::from_le_bytes([s[at], s[at + 1]]))
}

pub fn read_le32(s: &[u8], at: usize) -> usize
    requires { at + 4 ≤ length s.now }
    ensures { (result ≡ le32 s.now at) × (result < 4294967296) }
{
    u32::from_le_bytes([s[at], s[at + 1], s[at + 2], s[at + 3]]) as usize
}

// Stores of a number's low 16 or 32 bits.
pub fn put_le16(out: &mut [u8], at: usize, x: usize)
    requires { at + 2 ≤ length out.old }
    ensures { out.new ≡ sets out.old at (le16_bytes x) }
{
    out[at..at + 2].copy_from_slice(&((x % 65536) as u16).to_le_bytes());
}

pub fn put_le32(out: &mut [u8], at: usize, x: usize)
    requires { at + 4 ≤ length out.old }
    ensures { out.new ≡ sets out.old at (le32_bytes x) }
{
    out[at..at + 4].copy_from_slice(&((x % 4294967296) as u32).to_le_bytes());
}

pub fn put_be32(out: &mut [u8], at: usize, x: usize)
    requires { at + 4 ≤ length out.old }
    ensures { out.new ≡ sets out.old at (be32_bytes x) }
{
    out[at..at + 4].copy_from_slice(&((x % 4294967296) as u32).to_be_bytes());
}

// How far x stands past 0.
pub fn ahead_of(x: i32) -> usize
    ensures { (result ≡ ahead x) × (result < 4294967296) }
{
    x.max(0) as usize
}

// How far x stands before 0. The least i32 has no negative of its own type, but an unsigned one.
pub fn behind_of(x: i32) -> usize
    ensures { (result ≡ behind x) × (result < 4294967296) }
{
    x.min(0).unsigned_abs() as usize
}
