// The limbs in lent bytes: reading, writing and testing them (document 01, "Actors, points, limbs").
ghost use Rattle.std.specs.Prelude.{◌≡◌, ◌+◌, ◌*◌, ◌≤◌, length, leb, Ok};
ghost use Rattle.limbs.specs.Limb.{limb_at, put_limb, limb_right, limbs_right, draws};

use crate::Limb;
use number::{put_le32, read_le32};

// Limb i, which lies in the lent bytes.
pub fn limb_at(limbs: &[u8], i: usize) -> Limb
    requires { 16 * i + 16 ≤ length limbs.now }
    ensures { result ≡ limb_at limbs.now i }
{
    let at = 16 * i;
    let start = read_le32(limbs, at + 8);
    let place = read_le32(limbs, at + 12);
    Limb {
        active: limbs[at],
        stopped: limbs[at + 1],
        noloop: limbs[at + 2],
        shows: limbs[at + 3],
        picture: limbs[at + 4],
        len: limbs[at + 5],
        start,
        place,
    }
}

// Writes limb i; its two bytes that are not used stay.
pub fn put_limb(limbs: &mut [u8], i: usize, limb: Limb)
    requires { 16 * i + 16 ≤ length limbs.old }
    ensures { limbs.new ≡ put_limb limbs.old i limb }
{
    let at = 16 * i;
    limbs[at..at + 6].copy_from_slice(&[
        limb.active,
        limb.stopped,
        limb.noloop,
        limb.shows,
        limb.picture,
        limb.len,
    ]);
    put_le32(limbs, at + 8, limb.start);
    put_le32(limbs, at + 12, limb.place);
}

// Whether start + len is at most n. The sum is tested as a difference, so that it cannot wrap.
pub fn window_right(start: usize, len: usize, n: usize) -> bool
    ensures { result ≡ leb (start + len) n }
{
    len <= n && start <= n - len
}

// Whether a lent limb is right for a stream of n bytes.
#[tactic(auto, using(crate::proofs::LimbLaws::not_leb), unfolding(crate::specs::Limb::limb_right, crate::specs::Limb::place_right))]
fn limb_right(limb: Limb, n: usize) -> bool
    ensures { result ≡ limb_right n limb }
{
    let len = usize::from(limb.len);
    let inside = window_right(limb.start, len, n);
    let passed = window_right(limb.start, len, limb.place);
    limb.active == 0 || (1 <= len && len <= 128 && limb.start <= limb.place && !passed && inside)
}

// Whether all 16 lent limbs are right for a stream of n bytes.
pub fn limbs_right(limbs: &[u8], n: usize) -> bool
    requires { 256 ≤ length limbs.now }
    ensures { result ≡ limbs_right n limbs.now }
{
    for i in 0..16 {
        if !limb_right(limb_at(limbs, i), n) {
            return false;
        }
    }
    true
}

// The picture that a limb draws, where it draws.
#[tactic(auto, unfolding(crate::specs::Limb::draws))]
pub(crate) fn draw(limb: Limb) -> Option<u8>
    ensures { Ok result ≡ draws limb }
{
    (limb.active != 0 && limb.stopped == 0 && limb.shows != 0).then_some(limb.picture)
}
