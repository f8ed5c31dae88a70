// The sizes of a room as its session asks for them.
ghost use Rattle.std.specs.Prelude.{◌≡◌};
ghost use Rattle.verdict.specs.Size.{size_of};

use replay::Size;
use room::Room;

pub fn size_of(r: Room) -> Size
    ensures { result ≡ size_of r }
{
    Size {
        strips: r.width / 8,
        height: r.height,
        count: r.objects,
    }
}
