// How a strip's operations are read: by its method, and with so many bits to an index.
ghost use Rattle.std.specs.Prelude.{◌≤◌};
ghost use Rattle.strip_test.specs.WholeOps.{Rows};

use crate::rows::rows_of;

#[derive(Clone, Copy, Debug, PartialEq, Eq)]
pub(crate) struct Way {
    pub second: bool,
    pub w: u32,
    ghost few: { w ≤ 8 },
}

impl Way {
    // The rows of its method.
    pub(crate) fn rows(self) -> &'static [u16; 256]
        ensures { Rows self.second result.now }
    {
        rows_of(self.second)
    }
}
