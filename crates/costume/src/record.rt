// Animation records (document 004): their entries, the test of a record, and what an entry makes of its limb.
ghost use Rattle.std.specs.Prelude.{◌≡◌, ◌+◌, ◌^◌, ◌<◌, ◌≤◌, length};
ghost use Rattle.limbs.specs.Limb.{each_limb};
ghost use Rattle.costume.specs.Record.{entry_at, size_of, entry_of, entry_right, record_right, reset_limb, begun_limb};

use crate::Entry;
use limbs::Limb;
use limbs::bytes::{limb_at, put_limb, window_right};
use number::read_le16;

// Limb i's entry of a record with this mask, where it starts at p.
#[tactic(auto, unfolding(crate::specs::Record::entry_at))]
fn entry_at(payload: &[u8], mask: usize, i: usize, p: usize) -> Entry
    requires { (i < 16) × (p < 2 ^ 63) }
    ensures { result ≡ entry_at payload.now mask i p }
{
    if (mask >> (15 - i)) % 2 != 1 {
        return Entry::Unnamed;
    }
    if payload.len() < p + 2 {
        return Entry::Cut;
    }
    let start = read_le16(payload, p);
    if start == 0xFFFF {
        return Entry::Idle;
    }
    let Some(&last) = payload.get(p + 2) else {
        return Entry::Cut;
    };
    Entry::Window {
        start,
        len: last % 128 + 1,
        noloop: last / 128,
    }
}

// How many bytes an entry has.
fn entry_size(entry: Entry) -> usize
    ensures { (result ≡ size_of entry) × (result ≤ 3) }
{
    match entry {
        Entry::Unnamed | Entry::Cut => 0,
        Entry::Idle => 2,
        Entry::Window { .. } => 3,
    }
}

// Whether an entry is right for a stream of n bytes.
fn entry_right(entry: Entry, n: usize) -> bool
    ensures { result ≡ entry_right n entry }
{
    match entry {
        Entry::Unnamed | Entry::Idle => true,
        Entry::Cut => false,
        Entry::Window { start, len, .. } => window_right(start, usize::from(len), n),
    }
}

// Whether the record at payload byte r is right for a stream of n bytes.
pub(crate) fn record_right(payload: &[u8], r: usize, n: usize) -> bool
    requires { r < 65536 }
    ensures { result ≡ record_right payload.now r n }
{
    if payload.len() < r + 2 {
        return false;
    }
    let mask = read_le16(payload, r);
    let mut p = r + 2;
    for i in 0..16 {
        let entry = entry_at(payload, mask, i, p);
        if !entry_right(entry, n) {
            return false;
        }
        p += entry_size(entry);
    }
    true
}

// The limb with a new window, at its start and without a picture; its stopped byte stays.
fn reset(limb: Limb, active: u8, noloop: u8, len: u8, start: usize) -> Limb
    ensures { result ≡ reset_limb active noloop len start limb }
{
    Limb {
        active,
        stopped: limb.stopped,
        noloop,
        shows: 0,
        picture: 0,
        len,
        start,
        place: start,
    }
}

// What an entry makes of its limb.
#[tactic(auto, unfolding(crate::specs::Record::begun_limb))]
fn begin(entry: Entry, limb: Limb) -> Limb
    ensures { result ≡ begun_limb entry limb }
{
    match entry {
        Entry::Unnamed | Entry::Cut => limb,
        Entry::Idle => reset(limb, 0, 0, 0, 0),
        Entry::Window { start, len, noloop } => reset(limb, 1, noloop, len, start),
    }
}

// Sets the limbs that the record at payload byte r names.
pub(crate) fn begin_limbs(payload: &[u8], r: usize, limbs: &mut [u8])
    requires { (r < 65536) × (r + 2 ≤ length payload.now) × (256 ≤ length limbs.old) }
    ensures { limbs.new ≡ each_limb (λ i. begun_limb (entry_of payload.now r i)) 16 limbs.old }
{
    let mask = read_le16(payload, r);
    let mut p = r + 2;
    for i in 0..16 {
        let entry = entry_at(payload, mask, i, p);
        let limb = limb_at(&limbs[..], i);
        put_limb(limbs, i, begin(entry, limb));
        p += entry_size(entry);
    }
}
