// The bits of a strip body, read from bit 0 of each byte up (document 01, "Strips of pixels") and fetched many at a time (change request 2): a cursor
// by value, whose methods answer with the bits and the cursor behind them. Its fields are private, so that bits are handed out in no other way;
// `view` shows the bits from any place on and hands out none.
#![tactic(auto)]

ghost use Rattle.std.specs.Prelude.{◌≡◌, true, false, List, ℕ, ◌+◌, ◌*◌, ◌/◌, ◌≤◌, ◌<◌, ◌^◌, length};
ghost use Rattle.bits.specs.Bits.{Held, rest, Full, word_at, Views};
ghost use Rattle.bits.specs.Reader.{Starts, Fetches, Hands, Shows, One};

// A place among the bits of a body: the bit buffer `hold`, its number of bits, lowest first, and the bytes from `at` on not yet fetched.
#[derive(Clone, Copy, Debug, PartialEq, Eq)]
pub struct Cursor {
    at: usize,
    bits: u32,
    hold: u64,
}

// Bits that were handed out, as a number, low bit first, and the cursor behind them.
#[derive(Clone, Copy, Debug, PartialEq, Eq)]
pub struct Taken {
    pub value: u64,
    pub next: Cursor,
}

// 0 bits that were handed out, how many, and the cursor behind them.
#[derive(Clone, Copy, Debug, PartialEq, Eq)]
pub struct Zeros {
    pub count: u32,
    pub next: Cursor,
}

impl Cursor {
    pub fn new(at: usize) -> Self
        ensures { Starts at result }
    {
        Cursor {
            at,
            bits: 0,
            hold: 0,
        }
    }

    // Whether n bits are held.
    pub fn holds(self, n: u32) -> bool
        ensures { (result ≡ true → n ≤ self.bits) × (result ≡ false → self.bits < n) }
    {
        n <= self.bits
    }

    // The next n bits, which are held.
    pub fn take(self, n: u32) -> Taken
        requires { (n ≤ self.bits) × (self.bits ≤ 63) }
        ensures { Hands n result.value self result.next }
    {
        let size: u64 = 1 << n;
        Taken {
            value: self.hold % size,
            next: Cursor {
                at: self.at,
                bits: self.bits - n,
                hold: self.hold >> n,
            },
        }
    }

    // The 0 bits at the front of the next eight, which are held.
    pub fn zeros(self) -> Zeros
        requires { (8 ≤ self.bits) × (self.bits ≤ 63) }
        ensures { (result.count ≤ 8) × Hands result.count 0 self result.next × (result.count < 8 → (s : List ℕ) → One (rest s result.next)) }
    {
        let count = (self.hold % 256 + 256).trailing_zeros();
        let next = self.take(count).next;
        Zeros { count, next }
    }

    // The next n bits, not handed out. Where fewer are held the answer says nothing. An operation peeks at the bits of each of its outcomes and
    // chooses among the values, which needs no branch (docs/DECISIONS.md, 26).
    pub fn peek(self, n: u32) -> u8
        requires { n ≤ 8 }
        ensures { n ≤ self.bits → Shows n result self }
    {
        let size: u64 = 1 << n;
        (self.hold % size) as u8
    }

    // The same bits, one byte more of them held.
    fn refill_byte(self, body: &[u8]) -> Cursor
        requires { Held body.now self × (self.bits < 56) × (self.at < length body.now) }
        ensures { Fetches body.now self result × (result.at ≡ self.at + 1) }
    {
        let at = self.at;
        Cursor {
            at: at + 1,
            bits: self.bits + 8,
            hold: self.hold + (u64::from(body[at]) << self.bits),
        }
    }

    // The same bits, as many bytes more of them held as there are and as the bit buffer has room for.
    fn refill_bytes(self, body: &[u8]) -> Cursor
        requires { Held body.now self }
        ensures { Fetches body.now self result × Full body.now result }
    {
        let mut cur = self;
        while cur.at < body.len() && cur.bits < 56 {
            cur = cur.refill_byte(body);
        }
        cur
    }

    // The same in one step, where eight bytes are there: at most seven of them are fetched.
    fn refill_word(self, body: &[u8]) -> Cursor
        requires { Held body.now self × (self.at + 8 ≤ length body.now) }
        ensures { Fetches body.now self result × (56 ≤ result.bits) }
    {
        let at = self.at;
        let bits = self.bits;
        let room = (63 - bits) / 8;
        let size: u64 = 1 << (8 * room);
        let taken = eight(body, at) % size;
        Cursor {
            at: at + room as usize,
            bits: bits + 8 * room,
            hold: self.hold + (taken << bits),
        }
    }

    // The same bits, at least 56 of them held, or all that are left.
    pub fn refill(self, body: &[u8]) -> Cursor
        requires { Held body.now self }
        ensures { Fetches body.now self result × Full body.now result }
    {
        if 8 <= body.len() - self.at {
            self.refill_word(body)
        } else {
            self.refill_bytes(body)
        }
    }
}

// Eight bytes, the first lowest.
fn eight(body: &[u8], at: usize) -> u64
    requires { at + 8 ≤ length body.now }
    ensures { result ≡ word_at body.now at + word_at body.now (at + 4) * 4294967296 }
{
    u64::from_le_bytes([
        body[at],
        body[at + 1],
        body[at + 2],
        body[at + 3],
        body[at + 4],
        body[at + 5],
        body[at + 6],
        body[at + 7],
    ])
}

// The bits from bit p on, at least 57 of them, where eight bytes are there from its byte on.
pub fn view(body: &[u8], p: usize) -> u64
    requires { p / 8 + 8 ≤ length body.now }
    ensures { Views body.now p result }
{
    eight(body, p / 8) >> (p % 8) as u32
}
