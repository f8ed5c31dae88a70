// The part of a picture that lies in the frame, along one axis. A picture's corner is any i32: it is split into two unsigned distances, so
// that no signed sum is made.
ghost use Rattle.std.specs.Prelude.{◌≡◌, ◌-◌, ◌<◌, min};
ghost use Rattle.actor.specs.Corner.{InFrame};

use number::{ahead_of, behind_of};

// The columns (or rows) of a picture that lie in the frame: `count` of them, the first of which is the picture's `skip` and the frame's `start`.
#[derive(Clone, Copy, Debug, PartialEq, Eq)]
pub struct Span {
    pub start: usize,
    pub skip: usize,
    pub count: usize,
}

// How many of a picture's `size` columns (or rows) lie in the frame: its first `skip` lie before the frame, the next one lies at `start`,
// and the frame ends at `limit`.
pub(crate) fn count_of(size: usize, skip: usize, limit: usize, start: usize) -> usize
    ensures { result ≡ min (size - skip) (limit - start) }
{
    size.saturating_sub(skip).min(limit.saturating_sub(start))
}

// The part in a frame of `limit` columns (or rows) of a picture of `size` whose corner is at x.
pub(crate) fn span_of(x: i32, size: usize, limit: usize) -> Span
    ensures { InFrame x size limit result }
{
    let start = ahead_of(x);
    let skip = behind_of(x);
    let count = count_of(size, skip, limit, start);
    Span { start, skip, count }
}
