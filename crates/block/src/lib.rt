// The block tree of a room (document 01, "Blocks"). A block that was found is the pair of its first byte and the byte after its last.
#![tactic(auto)]

pub mod tags;

ghost use Rattle.std.specs.Prelude.{◌≡◌, ◌+◌, ◌≤◌, length};
ghost use Rattle.block.specs.Tag.{container};
ghost use Rattle.block.specs.Tree.{block_end, found_end, block_ok, list_ok, well_formed, find_tag, count_tag, nth_tag, need_tag, is_at, each_has};

use crate::tags::{OBCD, OBIM, RMIM, ROOM};
use number::read_be32;

// Whether the four bytes at `at` are the tag of a container.
fn is_container(s: &[u8], at: usize) -> bool
    requires { at + 4 ≤ length s.now }
    ensures { result ≡ container s.now at }
{
    let t = read_be32(s, at);
    (t == ROOM)
        | (t == RMIM)
        | (t == OBIM)
        | (t == OBCD)
        | ((s[at] == b'I')
            & (s[at + 1] == b'M')
            & s[at + 2].is_ascii_digit()
            & s[at + 3].is_ascii_digit())
}

// Where the block at `a` ends, in a list of blocks that ends at `e`, if a block stands there.
fn block_end(s: &[u8], a: usize, e: usize) -> Option<usize>
    requires { e ≤ length s.now }
    ensures { result ≡ found_end (block_end s.now a e) }
{
    if e < 8 || e - 8 < a {
        return None;
    }
    let n = read_be32(s, a + 4);
    if n < 8 || n > e - a {
        return None;
    }
    Some(a + n)
}

// Whether the blocks of the list in [at, end) fill it, each right with `left` depths left.
#[cycle(block_ok_list_ok)]
fn list_ok(s: &[u8], at: usize, end: usize, left: usize) -> bool
    requires { end ≤ length s.now }
    ensures { result ≡ list_ok left s.now at end }
{
    let mut a = at;
    while let Some(z) = block_end(s, a, end) {
        if !block_ok(s, a, z, left) {
            return false;
        }
        a = z;
    }
    a == end
}

// Whether the block in [a, z) is right, with `left` depths left.
#[cycle(block_ok_list_ok)]
fn block_ok(s: &[u8], a: usize, z: usize, left: usize) -> bool
    requires { (a + 8 ≤ z) × (z ≤ length s.now) }
    ensures { result ≡ block_ok left s.now a z }
{
    if left == 0 {
        return false;
    }
    if is_container(s, a) {
        list_ok(s, a + 8, z, left - 1)
    } else {
        true
    }
}

// Whether the slice is one ROOM block that fills it, of an allowed size, with a right tree to depth 6.
#[tactic(auto, unfolding(crate::specs::Tree::well_formed))]
pub fn well_formed(s: &[u8]) -> bool
    ensures { result ≡ well_formed s.now }
{
    let n = s.len();
    if n > 1048576 {
        return false;
    }
    if n < 8 {
        return false;
    }
    (read_be32(s, 0) == ROOM) & (block_end(s, 0, n) == Some(n)) & block_ok(s, 0, n, 6)
}

// How many blocks of the list in [at, end) have the tag `tag`.
pub fn count_tag(s: &[u8], at: usize, end: usize, tag: usize) -> usize
    requires { end ≤ length s.now }
    ensures { result ≡ count_tag tag s.now at end }
{
    let mut a = at;
    let mut n = 0;
    while let Some(z) = block_end(s, a, end) {
        if read_be32(s, a) == tag {
            n += 1;
        }
        a = z;
    }
    n
}

// The block number `k`, from 0, among those of the list in [at, end) with the tag `tag`.
pub fn nth_tag(s: &[u8], at: usize, end: usize, tag: usize, k: usize) -> Option<(usize, usize)>
    requires { end ≤ length s.now }
    ensures { result ≡ nth_tag tag s.now at end k }
{
    let mut a = at;
    let mut left = k;
    while let Some(z) = block_end(s, a, end) {
        if read_be32(s, a) == tag {
            if left == 0 {
                return Some((a, z));
            }
            left -= 1;
        }
        a = z;
    }
    None
}

// The first block with the tag `tag` of the list in [at, end).
pub fn find_tag(s: &[u8], at: usize, end: usize, tag: usize) -> Option<(usize, usize)>
    requires { end ≤ length s.now }
    ensures { result ≡ find_tag tag s.now at end }
{
    nth_tag(s, at, end, tag, 0)
}

// The payload of the first block with the tag `tag` of the list in [at, end), where it is there and has `n` bytes or more.
pub fn need_tag(s: &[u8], at: usize, end: usize, tag: usize, n: usize) -> Option<(usize, usize)>
    requires { end ≤ length s.now }
    ensures { result ≡ need_tag tag n s.now at end }
{
    let (b, z) = find_tag(s, at, end, tag)?;
    let p = b + 8;
    (n <= z - p).then_some((p, z))
}

// Whether the list in [at, end) has a block with the tag `tag`, of `n` bytes or more.
fn has_tag(s: &[u8], at: usize, end: usize, tag: usize, n: usize) -> bool
    requires { end ≤ length s.now }
    ensures { result ≡ is_at (need_tag tag n s.now at end) }
{
    need_tag(s, at, end, tag, n).is_some()
}

// Whether every block of the list in [at, end) with the tag `tag` has one with the tag `child` in it, of `n` bytes or more.
pub fn each_has(s: &[u8], at: usize, end: usize, tag: usize, child: usize, n: usize) -> bool
    requires { end ≤ length s.now }
    ensures { result ≡ each_has tag child n s.now at end }
{
    let mut a = at;
    while let Some(z) = block_end(s, a, end) {
        if read_be32(s, a) == tag {
            if !has_tag(s, a + 8, z, child, n) {
                return false;
            }
        }
        a = z;
    }
    true
}
