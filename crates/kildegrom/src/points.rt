// The object under a point.
ghost use Rattle.std.specs.Prelude.{◌≡◌};
ghost use Rattle.point.specs.Call.{pointed_at};
ghost use Rattle.answers.specs.Word.{pointed_word};

use answers::word;

// The object under a point.
#[unsafe(no_mangle)]
pub extern "C" fn kg_object_at(room: &[u8], session: &[u8], flags: &[u8], x: u32, y: u32) -> u64
    ensures { result ≡ pointed_word (pointed_at room.now session.now flags.now x y) }
{
    word(point::call::object_at(room, session, flags, x, y).map(|object| object.unwrap_or(0)))
}
