// The list's places, from the tables of counts and marks.
ghost use Rattle.std.specs.Prelude.{◌≡◌, ◌+◌, ◌*◌, ◌≤◌, ◌<◌, length};
ghost use Rattle.std.proofs.lemmas.List.Edits.{sets};
ghost use Rattle.number.specs.Buffer.{over};
ghost use Rattle.compare.specs.Compare.{is_different, next, listed_to, list_bytes, place_bytes};
ghost use Rattle.compare.specs.Tables.{table_at};

use number::buffer::put_four;
use number::{put_le16, wide_u32};

// Whether strip k differs.
fn is_off(counts: &[u32], marks: &[u8], k: usize) -> bool
    requires { (k < length counts.now) × (k < length marks.now) }
    ensures { result ≡ is_different (table_at counts.now marks.now k) }
{
    counts[k] != 0 || marks[k] != 0
}

// How many of the first n strips differ.
pub fn count_places(counts: &[u32], marks: &[u8], n: usize) -> usize
    requires { (n ≤ length counts.now) × (n ≤ length marks.now) × (n ≤ 128) }
    ensures { (result ≡ length (listed_to (table_at counts.now marks.now) n)) × (result ≤ n) }
{
    let mut count: usize = 0;
    for k in 0..n {
        count += usize::from(is_off(counts, marks, k));
    }
    count
}

fn put_place(list: &mut [u8], at: usize, counts: &[u32], marks: &[u8], k: usize)
    requires { (at + 8 ≤ length list.old) × (k < length counts.now) × (k < length marks.now) }
    ensures { list.new ≡ sets list.old at (place_bytes (table_at counts.now marks.now k)) }
{
    put_le16(list, at, k);
    put_le16(list, at + 2, wide_u32(counts[k]));
    put_four(list, at + 4, marks[k], 0, 0, 0);
}

// The place of strip k from `at` on, if the strip differs: where the next place begins.
fn put_next(list: &mut [u8], at: usize, counts: &[u32], marks: &[u8], k: usize) -> usize
    requires place_fits { (at + 8 * length (next (table_at counts.now marks.now k)) ≤ length list.old) × (at ≤ 1024) }
    requires strip_counted { (k < length counts.now) × (k < length marks.now) }
    ensures place_put { list.new ≡ sets list.old at (list_bytes (next (table_at counts.now marks.now k))) }
    ensures next_place { result ≡ at + 8 * length (next (table_at counts.now marks.now k)) }
{
    if is_off(counts, marks, k) {
        put_place(list, at, counts, marks, k);
        return at + 8;
    }
    at
}

// The places of the first n strips that differ, at the list's front.
pub fn put_places(counts: &[u32], marks: &[u8], n: usize, list: &mut [u8])
    requires strips_counted { (n ≤ length counts.now) × (n ≤ length marks.now) × (n ≤ 128) }
    requires places_fit { 8 * length (listed_to (table_at counts.now marks.now) n) ≤ length list.old }
    ensures { list.new
        ≡ over (list_bytes (listed_to (table_at counts.now marks.now) n)) list.old }
{
    let mut at: usize = 0;
    for k in 0..n {
        at = put_next(list, at, counts, marks, k);
    }
}
