// Writes the bodies of strips: of pixels, and of rows of a mask plane (document 01, "Writing rule").
#![tactic(auto)]

ghost use Rattle.std.specs.Prelude.{◌≡◌, ◌+◌, ◌-◌, ◌*◌, ◌%◌, ◌^◌, ◌<◌, ◌≤◌, [], ◌++◌, length, take, drop, slice_index};
ghost use Rattle.number.specs.Buffer.{over};
ghost use Rattle.bits.specs.Bits.{low_bits};
ghost use Rattle.strip_writer.specs.BitWriter.{bytes_with, bit_count, BitsPut, OpCoded};
ghost use Rattle.strip_writer.specs.Pixels.{op_bits, step_of, strip_body};
ghost use Rattle.strip_writer.specs.Rows.{run_length, literal_length, ops_bytes, all_zero, rows_body};
ghost use Rattle.strip_writer.specs.Place.{OpWritten};

use number::buffer::copy;
use std::num::{wrapping_add_u8, wrapping_sub_u8};

// ---- strips of pixels

// A place among the bits that are written: the bit buffer `hold`, its number of bits, lowest first, and the bytes before `at` done.
#[derive(Clone, Copy, Debug, PartialEq, Eq)]
pub struct BitWriter {
    pub at: usize,
    pub bits: u32,
    pub hold: u64,
}

// An operation: `count` bits, lowest first, as a number, and the step after it.
#[derive(Clone, Copy, Debug, PartialEq, Eq)]
pub struct Op {
    pub count: u32,
    pub value: u32,
    pub step: u8,
}

// The operation for the next pixel v: `0`, `110`, `111`, or `10` with the index (the first bit read is the lowest one).
// The step is 1 or 255, the bytes that leave the rest 1 by 254. So v lies a step off the colour exactly if it is one more or one less; the step
// after it is then colour - v, and `111` says that it turned. An index is told before the two: a test fewer where most pixels are new.
fn op_for(colour: u8, step: u8, v: u8) -> Op
    requires { step % 254 ≡ 1 }
    ensures { OpCoded colour step v result }
{
    if v == colour {
        return Op {
            count: 1,
            value: 0,
            step,
        };
    }
    let turn = wrapping_sub_u8(colour, v);
    if 3 <= wrapping_add_u8(turn, 1) {
        return Op {
            count: 10,
            value: 1 + 4 * u32::from(v),
            step: 1,
        };
    }
    if turn == step {
        return Op {
            count: 3,
            value: 3,
            step,
        };
    }
    Op {
        count: 3,
        value: 7,
        step: turn,
    }
}

// The operations for the next two pixels as one: whether bytes go out is then tested once for both, which saves a quarter of the time.
fn op_pair(colour: u8, step: u8, v: u8, next: u8) -> Op
    requires { step % 254 ≡ 1 }
    ensures { (low_bits result.count result.value ≡ op_bits colour step v ++ op_bits v (step_of colour step v) next) × (result.count ≤ 20)
        × (result.value < 2 ^ result.count) × (result.step ≡ step_of v (step_of colour step v) next) }
{
    let one = op_for(colour, step, v);
    let two = op_for(v, one.step, next);
    Op {
        count: one.count + two.count,
        value: one.value + (two.value << one.count),
        step: two.step,
    }
}

// One byte out, where eight bits are held.
fn flush_byte(out: &mut [u8], writer: BitWriter) -> BitWriter
    requires { (writer.hold < 2 ^ writer.bits) × (bit_count writer < 8 * length out.old + 8) }
    ensures { BitsPut out.old out.new writer result [] × (bit_count result ≡ bit_count writer) × (result.bits ≤ 7 + (writer.bits - 15)) }
{
    let at = writer.at;
    let bits = writer.bits;
    let hold = writer.hold;
    if bits < 8 {
        return writer;
    }
    out[at] = (hold % 256) as u8;
    BitWriter {
        at: at + 1,
        bits: bits - 8,
        hold: hold / 256,
    }
}

// The whole bytes that are held, at most four of them. Where 32 bits are held, the compiler makes one store of the four.
fn flush(out: &mut [u8], writer: BitWriter) -> BitWriter
    requires { (writer.hold < 2 ^ writer.bits) × (bit_count writer < 8 * length out.old + 8) }
    ensures { BitsPut out.old out.new writer result [] × (bit_count result ≡ bit_count writer) × (result.bits ≤ 7 + (writer.bits - 39)) }
{
    let one = flush_byte(out, writer);
    let two = flush_byte(out, one);
    let three = flush_byte(out, two);
    flush_byte(out, three)
}

// The bits of one operation or two follow those held. At most 51 are then held: bytes go out where there are four of them.
fn put_bits(out: &mut [u8], writer: BitWriter, count: u32, value: u32) -> BitWriter
    requires { (writer.hold < 2 ^ writer.bits) × (writer.bits ≤ 31) × (value < 2 ^ count) × (count ≤ 20)
        × (bit_count writer + count < 8 * length out.old + 8) }
    ensures { BitsPut out.old out.new writer result (low_bits count value) × (bit_count result ≡ bit_count writer + count) × (result.bits ≤ 31) }
{
    let bits = writer.bits;
    let full = BitWriter {
        at: writer.at,
        bits: bits + count,
        hold: writer.hold + (u64::from(value) << bits),
    };
    if bits + count < 32 {
        return full;
    }
    flush(out, full)
}

// The last byte, padded with zeros, where bits are left: how many bytes there are.
fn last_byte(out: &mut [u8], writer: BitWriter) -> usize
    requires { (writer.hold < 2 ^ writer.bits) × (writer.bits ≤ 7) × (bit_count writer ≤ 8 * length out.old) }
    ensures { (take result out.new ≡ bytes_with out.old writer []) × (drop result out.new ≡ drop result out.old)
        × (writer.at ≤ result) × (result ≤ length out.new) }
{
    let at = writer.at;
    let bits = writer.bits;
    if bits == 0 {
        return at;
    }
    out[at] = writer.hold as u8;
    at + 1
}

// The bits that are held, at the end: how many bytes there are.
fn finish(out: &mut [u8], writer: BitWriter) -> usize
    requires { (writer.hold < 2 ^ writer.bits) × (writer.bits ≤ 31) × (bit_count writer ≤ 8 * length out.old) }
    ensures { (take result out.new ≡ bytes_with out.old writer []) × (drop result out.new ≡ drop result out.old)
        × (writer.at ≤ result) × (result ≤ length out.new) }
{
    let rest = flush(out, writer);
    last_byte(out, rest)
}

// One strip of pixels, given by rows, as a body at the front of `out`: its length.
pub fn write_strip(px: &[u8], out: &mut [u8]) -> usize
    requires { (1 ≤ length px.now) × (length (strip_body px.now) ≤ length out.old) }
    ensures { (result ≡ length (strip_body px.now)) × (out.new ≡ over (strip_body px.now) out.old) }
{
    let first = px[0];
    out[0] = 0x1C;
    out[1] = first;
    let mut writer = BitWriter {
        at: 2,
        bits: 0,
        hold: 0,
    };
    let mut colour = first;
    let mut step: u8 = 1;
    // A step is two pixels, and one may be left: `chunks_exact` and its remainder would be no plainer.
    let mut i: usize = 1;
    while i + 1 < px.len() {
        let next = px[i + 1];
        let o = op_pair(colour, step, px[i], next);
        writer = put_bits(out, writer, o.count, o.value);
        colour = next;
        step = o.step;
        i += 2;
    }
    if px.len() <= i {
        return finish(out, writer);
    }
    let o = op_for(colour, step, px[i]);
    writer = put_bits(out, writer, o.count, o.value);
    finish(out, writer)
}

// The bits of the operation for the next pixel v: 1, 3 or 10, whatever the step is.
fn op_size(colour: u8, v: u8) -> u16
    ensures { result ≡ length (op_bits colour 1 v) }
{
    if v == colour {
        return 1;
    }
    if wrapping_add_u8(wrapping_sub_u8(colour, v), 1) < 3 {
        return 3;
    }
    10
}

// The length of the body of one strip of pixels, counted and not written. The bits of 1,599 operations fit a u16: with a usize the compiler counts
// two pixels at a time, with a u16 eight.
pub fn strip_size(px: &[u8]) -> usize
    requires { (1 ≤ length px.now) × (length px.now ≤ 1600) }
    ensures { result ≡ length (strip_body px.now) }
{
    let mut bits: u16 = 0;
    for i in 1..px.len() {
        bits += op_size(px[i - 1], px[i]);
    }
    2 + (usize::from(bits) + 7) / 8
}

// ---- strips of mask rows

// The most rows that one operation brings.
const LONGEST_RUN: usize = 127;

const LONGEST_LITERAL: usize = 127;

// How many rows from y on equal the row at y, at most 127.
// (Tried as a chain of `take`, `take_while` and `count`, and slower: a plane took up to a fifth longer.)
fn run_length(rows: &[u8], y: usize) -> usize
    requires { y < length rows.now }
    ensures { result ≡ run_length 127 (slice_index rows.now y) (drop y rows.now) }
{
    let b = rows[y];
    for n in 0..LONGEST_RUN {
        if rows.len() <= y + n || rows[y + n] != b {
            return n;
        }
    }
    LONGEST_RUN
}

// How many rows from y on stand before the next place where two equal rows begin, at most 127.
fn literal_length(rows: &[u8], y: usize) -> usize
    requires { y < length rows.now }
    ensures { result ≡ literal_length 127 (drop y rows.now) }
{
    for m in 0..LONGEST_LITERAL {
        let next = m + 1;
        if rows.len() <= y + next {
            return next;
        }
        if rows[y + m] == rows[y + next] {
            return m;
        }
    }
    LONGEST_LITERAL
}

// The rows from y on are to be written at `at`.
#[derive(Clone, Copy, Debug, PartialEq, Eq)]
pub struct Place {
    pub y: usize,
    pub at: usize,
}

// One operation, a run or a literal: where the next one goes.
fn write_op(rows: &[u8], out: &mut [u8], y: usize, at: usize) -> Place
    requires { (y < length rows.now) × (at + length (ops_bytes 0 (drop y rows.now)) ≤ length out.old) }
    ensures { OpWritten rows.now out.old out.new y at result }
{
    let n = run_length(rows, y);
    if 2 <= n {
        out[at] = (0x80 + n) as u8;
        out[at + 1] = rows[y];
        return Place {
            y: y + n,
            at: at + 2,
        };
    }
    let m = literal_length(rows, y);
    out[at] = m as u8;
    copy(rows, y, m, out, at + 1);
    Place {
        y: y + m,
        at: at + 1 + m,
    }
}

// The operations of a strip of rows at the front of `out`: their length.
fn write_ops(rows: &[u8], out: &mut [u8]) -> usize
    requires { length (ops_bytes 0 rows.now) ≤ length out.old }
    ensures { (result ≡ length (ops_bytes 0 rows.now)) × (out.new ≡ over (ops_bytes 0 rows.now) out.old) }
{
    let mut y: usize = 0;
    let mut at: usize = 0;
    while y < rows.len() {
        let next = write_op(rows, out, y, at);
        y = next.y;
        at = next.at;
    }
    at
}

// Whether all rows are zero. Every row is looked at: with no way out of the loop it is done sixteen rows at a time.
fn all_zero(rows: &[u8]) -> bool
    ensures { result ≡ all_zero rows.now }
{
    let mut zero = true;
    for row in rows {
        zero &= *row == 0;
    }
    zero
}

// One strip of rows as a body at the front of `out`: its length, 0 where all rows are zero.
pub fn write_rows(rows: &[u8], out: &mut [u8]) -> usize
    requires { length (rows_body rows.now) ≤ length out.old }
    ensures { (result ≡ length (rows_body rows.now)) × (out.new ≡ over (rows_body rows.now) out.old) }
{
    if all_zero(rows) {
        return 0;
    }
    write_ops(rows, out)
}
