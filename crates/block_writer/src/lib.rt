// Writes a background as a whole SMAP block, and a plane as a whole ZP block (document 01, "Writing rule"). A block has n strips of
// h rows; `mask` is true for ZP. A call first sees whether its block has room, gives its refusal, and only then writes.
#![tactic(auto)]

ghost use Rattle.std.specs.Prelude.{◌≡◌, true, false, List, ◌++◌, ℕ, ◌+◌, ◌*◌, ◌≤◌, ◌<◌, length, get_or, take, leb};
ghost use Rattle.std.proofs.lemmas.List.Edits.{sets};
ghost use Rattle.number.specs.Buffer.{over};
ghost use Rattle.strip.specs.Picture.{up_to};
ghost use Rattle.table.specs.Table.{offset_size, table_end};
ghost use Rattle.block_writer.specs.Block.{strip_bytes, body_for, offset_bytes, offset_of, table_from, bodies_from, size_of};
ghost use Rattle.block_writer.specs.Call.{sizes_allowed, source_size, block_outcome, smap_outcome, plane_outcome, Answered, Given};

use number::buffer::put_four;
use number::{put_be32, put_le16, put_le32};
use refusal::{Reason, Refusal};

// Eight bytes of `src` from `from` on into `out` from `to` on. All are read before the first is stored: as the two may be the same memory
// for all that the compiler knows, only then does it make one load and one store of them. With copy_from_slice a block took 1.09 of the time.
fn copy_eight(src: &[u8], from: usize, out: &mut [u8], to: usize)
    requires { (from + 8 ≤ length src.now) × (to + 8 ≤ length out.old) }
    ensures { out.new ≡ sets out.old to (up_to (λ j. get_or src.now (from + j) 0) 8) }
{
    let a = src[from];
    let b = src[from + 1];
    let c = src[from + 2];
    let d = src[from + 3];
    let e = src[from + 4];
    let f = src[from + 5];
    let g = src[from + 6];
    let h = src[from + 7];
    put_four(out, to, a, b, c, d);
    put_four(out, to + 4, e, f, g, h);
}

// The pixels of strip k, eight of each of the h rows of `wide` bytes, into the front of `out`.
fn gather_pixels(src: &[u8], wide: usize, h: usize, k: usize, out: &mut [u8])
    requires { (8 * k + 8 ≤ wide) × (h * wide ≤ length src.now) × (8 * h ≤ length out.old) }
    ensures { take (8 * h) out.new ≡ strip_bytes 8 wide h src.now k }
{
    for y in 0..h {
        copy_eight(src, y * wide + 8 * k, out, 8 * y);
    }
}

// The rows of strip k, a byte of each of the h rows of n bytes, into the front of `out`.
fn gather_rows(src: &[u8], n: usize, h: usize, k: usize, out: &mut [u8])
    requires { (k < n) × (h * n ≤ length src.now) × (h ≤ length out.old) }
    ensures { take h out.new ≡ strip_bytes 1 n h src.now k }
{
    for y in 0..h {
        out[y] = src[y * n + k];
    }
}

// The bytes of one offset in the table.
fn offset_size(mask: bool) -> usize
    ensures { (result ≡ offset_size mask) × (result ≤ 4) }
{
    if mask {
        return 2;
    }
    4
}

// An offset in the table, the lowest byte first.
fn put_offset(out: &mut [u8], mask: bool, at: usize, v: usize)
    requires { at + offset_size mask ≤ length out.old }
    ensures { out.new ≡ sets out.old at (offset_bytes mask v) }
{
    if mask {
        put_le16(out, at, v);
    } else {
        put_le32(out, at, v);
    }
}

// The offset of a body of `len` bytes at `at`: 0 where there is no body.
fn offset_of(len: usize, at: usize) -> usize
    ensures { (b : List ℕ) → len ≡ length b → result ≡ offset_of b at }
{
    if len == 0 {
        return 0;
    }
    at
}

// The longest that the body of a strip of h rows can be, whatever they hold: a code, a colour and 8h - 1 operations of 10 bits; or a byte for
// each row, and one for each literal, as a literal and the run behind it are three rows or more.
fn body_most(mask: bool, h: usize) -> usize
    requires { (1 ≤ h) × (h ≤ 200) }
    ensures { ((n k : ℕ) (src : List ℕ) → length (body_for mask n h src k) ≤ result) × (result ≤ 2001) }
{
    if mask {
        return h + (h + 2) / 3;
    }
    10 * h + 1
}

// How many bytes a block is made from.
fn source_size(mask: bool, n: usize, h: usize) -> usize
    requires { (n ≤ 128) × (h ≤ 200) }
    ensures { result ≡ source_size mask n h }
{
    if mask {
        return h * n;
    }
    h * (8 * n)
}

// What a block is made from: n strips of h rows, of pixels, or of a plane's bytes where `mask` is true.
#[derive(Clone, Copy, Debug)]
struct Source<'a> {
    rows: &'a [u8],
    mask: bool,
    n: usize,
    h: usize,
    ghost given: { Given mask n h (length rows.now) },
}

impl Source<'_> {
    ghost use Rattle.block_writer.specs.Source.{body_of};

    // The body of strip k of a picture at the front of `out`: its length.
    fn write_pixels(&self, k: usize, out: &mut [u8]) -> usize
        requires picture { self.now.mask ≡ false }
        requires strip_in { k < self.now.n }
        requires room { length (body_of self.now k) ≤ length out.old }
        ensures len { result ≡ length (body_of self.now k) }
        ensures written { out.new ≡ over (body_of self.now k) out.old }
    {
        let mut strip = [0u8; 1600];
        gather_pixels(self.rows, 8 * self.n, self.h, k, &mut strip);
        strip_writer::write_strip(&strip[..8 * self.h], out)
    }

    // The body of strip k of a plane at the front of `out`: its length, 0 where it has none.
    fn write_rows(&self, k: usize, out: &mut [u8]) -> usize
        requires plane { self.now.mask ≡ true }
        requires strip_in { k < self.now.n }
        requires room { length (body_of self.now k) ≤ length out.old }
        ensures len { result ≡ length (body_of self.now k) }
        ensures written { out.new ≡ over (body_of self.now k) out.old }
    {
        let mut strip = [0u8; 200];
        gather_rows(self.rows, self.n, self.h, k, &mut strip);
        strip_writer::write_rows(&strip[..self.h], out)
    }

    // The body of strip k at the front of `out`: its length, 0 where it has none.
    fn write_body(&self, k: usize, out: &mut [u8]) -> usize
        requires strip_in { k < self.now.n }
        requires room { length (body_of self.now k) ≤ length out.old }
        ensures len { result ≡ length (body_of self.now k) }
        ensures written { out.new ≡ over (body_of self.now k) out.old }
    {
        if self.mask {
            self.write_rows(k, out)
        } else {
            self.write_pixels(k, out)
        }
    }

    // The length of the body of strip k of a picture, counted and not written.
    fn pixels_size(&self, k: usize) -> usize
        requires picture { self.now.mask ≡ false }
        requires strip_in { k < self.now.n }
        ensures { result ≡ length (body_of self.now k) }
    {
        let mut strip = [0u8; 1600];
        gather_pixels(self.rows, 8 * self.n, self.h, k, &mut strip);
        strip_writer::strip_size(&strip[..8 * self.h])
    }

    // The length of the body of strip k. One of a plane is written to be measured, into a scratch that has room for the longest.
    fn body_size(&self, k: usize) -> usize
        requires strip_in { k < self.now.n }
        ensures len { result ≡ length (body_of self.now k) }
        ensures few { result ≤ 2001 }
    {
        if self.mask {
            let mut scratch = [0u8; 267];
            self.write_rows(k, &mut scratch)
        } else {
            self.pixels_size(k)
        }
    }

    // The length of all bodies.
    fn bodies_size(&self) -> usize
        ensures len { result ≡ length (bodies_from (body_of self.now) 0 self.now.n) }
        ensures few { result ≤ 2001 * self.now.n }
    {
        let mut sum: usize = 0;
        for k in 0..self.n {
            sum += self.body_size(k);
        }
        sum
    }

    // Whether a block has room in a target of `room` bytes. It is measured only where the longest bodies would not have room: a caller who lends
    // the most that a block can take has it written in one pass.
    fn has_room(&self, room: usize) -> bool
        ensures { result ≡ leb (size_of self.now.mask self.now.n (body_of self.now)) room }
    {
        let table = 8 + offset_size(self.mask) * self.n;
        if table + body_most(self.mask, self.h) * self.n <= room {
            return true;
        }
        let size = table + self.bodies_size();
        size <= room
    }

    // The table and the bodies, after a header of 8 bytes: where they end.
    fn write_strips(&self, out: &mut [u8]) -> usize
        requires room { size_of self.now.mask self.now.n (body_of self.now) ≤ length out.old }
        ensures size { result ≡ size_of self.now.mask self.now.n (body_of self.now) }
        ensures written { out.new ≡ over (take 8 out.old
            ++ (table_from self.now.mask (body_of self.now) 0 self.now.n (table_end self.now.mask self.now.n)
            ++ bodies_from (body_of self.now) 0 self.now.n)) out.old }
    {
        let size = offset_size(self.mask);
        let mut at = 8 + size * self.n;
        for k in 0..self.n {
            let len = self.write_body(k, &mut out[at..]);
            put_offset(out, self.mask, 8 + size * k, offset_of(len, at));
            at += len;
        }
        at
    }
}

// A block into `out`; 4 where the source or the target is too short.
fn write_block(
    src: &[u8],
    tag: usize,
    mask: bool,
    n: usize,
    h: usize,
    out: &mut [u8],
) -> Result<usize, Refusal>
    requires { (1 ≤ h) × (h ≤ 200) × (1 ≤ n) × (n ≤ 128) }
    ensures { Answered (block_outcome tag mask n h src.now (length out.old)) out.old out.new result }
{
    if src.len() < source_size(mask, n, h) {
        return Err(Reason::BufferShort.into());
    }
    let source = Source {
        rows: src,
        mask,
        n,
        h,
    };
    if !source.has_room(out.len()) {
        return Err(Reason::BufferShort.into());
    }
    let size = source.write_strips(out);
    put_be32(out, 0, tag);
    put_be32(out, 4, size);
    Ok(size)
}

// Whether a width and a height are allowed.
fn sizes_allowed(w: u32, h: u32) -> bool
    ensures { result ≡ sizes_allowed w h }
{
    (w % 8 == 0) & ((8 <= w) & ((w <= 1024) & ((1 <= h) & (h <= 200))))
}

// The SMAP block of w × h pixels, pixel (x, y) at y × w + x of `rows`, into `out`: its length, or 3, or 4.
pub fn write_smap(rows: &[u8], out: &mut [u8], w: u32, h: u32) -> Result<usize, Refusal>
    ensures { Answered (smap_outcome w h rows.now (length out.old)) out.old out.new result }
{
    if !sizes_allowed(w, h) {
        return Err(Reason::OutOfSize.into());
    }
    write_block(rows, 0x534D4150, false, (w / 8) as usize, h as usize, out)
}

// The block ZP0k of one plane, row y of strip s at y × w / 8 + s of `rows`, into `out`: its length, or 3, or 4.
pub fn write_plane(rows: &[u8], out: &mut [u8], w: u32, h: u32, k: u32) -> Result<usize, Refusal>
    ensures { Answered (plane_outcome k w h rows.now (length out.old)) out.old out.new result }
{
    if !(sizes_allowed(w, h) & ((1 <= k) & (k <= 4))) {
        return Err(Reason::OutOfSize.into());
    }
    write_block(
        rows,
        0x5A503030 + (k as usize),
        true,
        (w / 8) as usize,
        h as usize,
        out,
    )
}
