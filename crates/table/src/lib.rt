// Strip tables and bodies of SMAP and ZP blocks, and the test of a whole block: refusals 5 to 8 (document 01, "Strips of pixels",
// "Strips of masks"). A block stands in [b, z) of the room, its header included, and has n strips; `mask` is true for ZP.
#![tactic(auto)]

ghost use Rattle.std.specs.Prelude.{◌≡◌, true, false, ◌+◌, ◌-◌, ◌*◌, ◌≤◌, ◌<◌, length};
ghost use Rattle.strip.specs.Strip.{Filled};
ghost use Rattle.strip.specs.Picture.{Answered};
ghost use Rattle.table.specs.Table.{offset_size, table_end, offset_at, offset_right, bodiless, table_right};
ghost use Rattle.table.specs.Body.{body_end, body_of, strip_at, rows_at};
ghost use Rattle.table.specs.Test.{and_then, strip_test, block_test};

use number::{read_le16, read_le32};
use refusal::{Reason, Refusal};

// Where the table ends, counted from the header.
fn table_end(mask: bool, n: usize) -> usize
    requires { n ≤ 128 }
    ensures { result ≡ table_end mask n }
{
    if mask { 8 + 2 * n } else { 8 + 4 * n }
}

// The offset of strip k.
pub fn offset_at(room: &[u8], mask: bool, b: usize, k: usize) -> usize
    requires { (b + 8 + offset_size mask * (k + 1) ≤ length room.now) × (k ≤ 128) }
    ensures { (result ≡ offset_at mask room.now b k) × (result < 4294967296) }
{
    if mask {
        read_le16(room, b + 8 + 2 * k)
    } else {
        read_le32(room, b + 8 + 4 * k)
    }
}

// Whether one offset is right.
fn offset_right(low: usize, size: usize, before: usize, offset: usize) -> bool
    ensures { result ≡ offset_right low size before offset }
{
    (low <= offset) & (offset < size) & (before < offset)
}

// Whether the block's table fits it and its offsets are right.
pub fn table_right(room: &[u8], mask: bool, n: usize, b: usize, z: usize) -> bool
    requires { (n ≤ 128) × (b ≤ z) × (z ≤ length room.now) }
    ensures { result ≡ table_right mask n room.now b z }
{
    let size = z - b;
    let low = table_end(mask, n);
    if size < low {
        return false;
    }
    let mut before = 0;
    for k in 0..n {
        let offset = offset_at(room, mask, b, k);
        if mask & (offset == 0) {
            continue;
        }
        if !offset_right(low, size, before, offset) {
            return false;
        }
        before = offset;
    }
    true
}

// Where the body before strip k ends: at the next offset that isn't 0, or at the block's end.
pub fn body_end(room: &[u8], mask: bool, n: usize, b: usize, z: usize, k: usize) -> usize
    requires { (k ≤ n) × (n ≤ 128) × (b + table_end mask n ≤ z) × (z ≤ length room.now) }
    ensures { result ≡ body_end mask room.now b z k (n - k) }
{
    for j in k..n {
        let offset = offset_at(room, mask, b, j);
        if offset != 0 {
            return b + offset;
        }
    }
    z
}

// The body of strip k, which has one, in a block whose table is right.
pub fn strip_body(room: &[u8], mask: bool, n: usize, b: usize, z: usize, k: usize) -> &[u8]
    requires strip_in_block { (k < n) × (n ≤ 128) × (b ≤ z) × (z ≤ length room.now) }
    requires table_right { table_right mask n room.now b z ≡ true }
    requires has_body { bodiless mask (offset_at mask room.now b k) ≡ false }
    ensures { result.now ≡ body_of mask n room.now b z k }
{
    let start = b + offset_at(room, mask, b, k);
    let end = body_end(room, mask, n, b, z, k + 1);
    &room[start..end]
}

// The pixels of strip k of an SMAP block whose table is right, by rows, into the first 8h bytes of `out`.
pub fn read_strip(
    room: &[u8],
    n: usize,
    h: usize,
    b: usize,
    z: usize,
    k: usize,
    out: &mut [u8],
) -> Result<bool, Refusal>
    requires strip_in_block { (k < n) × (n ≤ 128) × (b ≤ z) × (z ≤ length room.now) }
    requires table_right { table_right false n room.now b z ≡ true }
    requires pixels_fit { (h ≤ 200) × (8 * h ≤ length out.old) }
    ensures { Answered (strip_at n h room.now b z k) out.old out.new result }
{
    decode::decode_strip(strip_body(room, false, n, b, z, k), h, out)
}

// The rows of strip k of a ZP block whose table is right, into the first h bytes of `out`.
pub fn read_rows(
    room: &[u8],
    n: usize,
    h: usize,
    b: usize,
    z: usize,
    k: usize,
    out: &mut [u8],
) -> Result<(), Refusal>
    requires strip_in_block { (k < n) × (n ≤ 128) × (b ≤ z) × (z ≤ length room.now) }
    requires table_right { table_right true n room.now b z ≡ true }
    requires rows_fit { h ≤ length out.old }
    ensures { Filled h (rows_at n h room.now b z k) out.old out.new result }
{
    if offset_at(room, true, b, k) == 0 {
        out[..h].fill(0);
        return Ok(());
    }
    plane::mask_rows(strip_body(room, true, n, b, z, k), h, out)
}

// The test of strip k of an SMAP block whose table is right.
fn test_picture(
    room: &[u8],
    n: usize,
    h: usize,
    b: usize,
    z: usize,
    k: usize,
) -> Result<(), Refusal>
    requires strip_in_block { (h ≤ 200) × (k < n) × (n ≤ 128) × (b ≤ z) × (z ≤ length room.now) }
    requires table_right { table_right false n room.now b z ≡ true }
    ensures { result ≡ strip_test false n h room.now b z k }
{
    strip_test::test_strip(strip_body(room, false, n, b, z, k), h)
}

// The test of the strips k and k + 1 of an SMAP block whose table is right.
fn test_pictures(
    room: &[u8],
    n: usize,
    h: usize,
    b: usize,
    z: usize,
    k: usize,
) -> Result<(), Refusal>
    requires strips_in_block { (h ≤ 200) × (k + 1 < n) × (n ≤ 128) × (b ≤ z) × (z ≤ length room.now) }
    requires table_right { table_right false n room.now b z ≡ true }
    ensures { result ≡ and_then (strip_test false n h room.now b z k) (strip_test false n h room.now b z (k + 1)) }
{
    let x = strip_body(room, false, n, b, z, k);
    let y = strip_body(room, false, n, b, z, k + 1);
    let two = strip_test::test_two(x, y, h);
    two.a.and(two.b)
}

// The test of strip k of a ZP block whose table is right.
fn test_rows(room: &[u8], n: usize, h: usize, b: usize, z: usize, k: usize) -> Result<(), Refusal>
    requires strip_in_block { (h ≤ 200) × (k < n) × (n ≤ 128) × (b ≤ z) × (z ≤ length room.now) }
    requires table_right { table_right true n room.now b z ≡ true }
    ensures { result ≡ strip_test true n h room.now b z k }
{
    if offset_at(room, true, b, k) == 0 {
        return Ok(());
    }
    plane::test_rows(strip_body(room, true, n, b, z, k), h)
}

// The test of strip k.
fn test_strip(
    room: &[u8],
    mask: bool,
    n: usize,
    h: usize,
    b: usize,
    z: usize,
    k: usize,
) -> Result<(), Refusal>
    requires strip_in_block { (h ≤ 200) × (k < n) × (n ≤ 128) × (b ≤ z) × (z ≤ length room.now) }
    requires table_right { table_right mask n room.now b z ≡ true }
    ensures { result ≡ strip_test mask n h room.now b z k }
{
    if mask {
        test_rows(room, n, h, b, z, k)
    } else {
        test_picture(room, n, h, b, z, k)
    }
}

// The test of the strips k and k + 1.
fn test_pair(
    room: &[u8],
    mask: bool,
    n: usize,
    h: usize,
    b: usize,
    z: usize,
    k: usize,
) -> Result<(), Refusal>
    requires strips_in_block { (h ≤ 200) × (k + 1 < n) × (n ≤ 128) × (b ≤ z) × (z ≤ length room.now) }
    requires table_right { table_right mask n room.now b z ≡ true }
    ensures { result ≡ and_then (strip_test mask n h room.now b z k) (strip_test mask n h room.now b z (k + 1)) }
{
    if mask {
        test_rows(room, n, h, b, z, k)?;
        test_rows(room, n, h, b, z, k + 1)
    } else {
        test_pictures(room, n, h, b, z, k)
    }
}

// The test of a whole block of n strips of h rows.
pub fn test_block(
    room: &[u8],
    mask: bool,
    n: usize,
    h: usize,
    b: usize,
    z: usize,
) -> Result<(), Refusal>
    requires { (h ≤ 200) × (n ≤ 128) × (b ≤ z) × (z ≤ length room.now) }
    ensures { result ≡ block_test mask n h room.now b z }
{
    if !table_right(room, mask, n, b, z) {
        return Err(Reason::TableWrong.into());
    }
    for i in 0..n / 2 {
        test_pair(room, mask, n, h, b, z, 2 * i)?;
    }
    if n % 2 == 0 {
        return Ok(());
    }
    test_strip(room, mask, n, h, b, z, n - 1)
}
