// The two rooms that are compared.
ghost use Rattle.compare.specs.Tables.{Comparable};

use room::Room;

// Two rooms that pass their tests, with their sizes, which are the same.
#[derive(Clone, Copy, Debug, PartialEq, Eq)]
pub struct Pair<'a> {
    pub a: &'a [u8],
    pub ra: Room,
    pub b: &'a [u8],
    pub rb: Room,
    ghost comparable: { Comparable a.now ra b.now rb },
}
