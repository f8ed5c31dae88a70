// The whole test of a room, with which every call that takes room bytes starts: refusals 1 to 8, with 4 in its place.
ghost use Rattle.std.specs.Prelude.{◌≡◌, ◌≤◌};
ghost use Rattle.room.specs.Head.{Sound};
ghost use Rattle.room.specs.Test.{pictures_test, short, room_test, nothing, fixed_only, with_surfaces, with_flags};

use crate::head::read_head;
use crate::picture::test_im;
use crate::{Lent, Room};
use refusal::{Reason, Refusal};

// The tests of the background and of planes 1 to N.
#[tactic(auto, unfolding(crate::specs::Test::pictures_test))]
fn test_pictures(s: &[u8], r: Room) -> Result<(), Refusal>
    requires { Sound s.now r }
    ensures { result ≡ pictures_test s.now r }
{
    let strips = r.width / 8;
    test_im(
        s,
        r.image,
        r.image_end,
        r.smap,
        r.smap_end,
        strips,
        r.height,
        r.planes,
    )
}

// Whether a lent buffer is shorter than the call needs.
#[tactic(auto, unfolding(crate::specs::Test::short))]
fn is_short(lent: Lent, r: Room) -> bool
    requires { (r.width ≤ 1024) × (r.height ≤ 200) × (r.planes ≤ 4) }
    ensures { result ≡ short lent r }
{
    let width = r.width;
    let height = r.height;
    let planes = r.planes;
    let area = width * height;
    let rows = planes * height;
    let masks = width / 8 * rows;
    lent.fixed_short
        | (lent.has_surfaces & ((lent.pixels < area) | (lent.masks < masks)))
        | (lent.has_flags & (lent.flags < r.objects))
}

// The whole test.
#[tactic(auto, unfolding(crate::specs::Test::room_test, crate::specs::Test::after_head))]
pub fn test_room(s: &[u8], lent: Lent) -> Result<Room, Refusal>
    ensures { result ≡ room_test lent s.now }
{
    let room = read_head(s)?;
    if is_short(lent, room) {
        return Err(Reason::BufferShort.into());
    }
    test_pictures(s, room)?;
    Ok(room)
}

// Nothing is lent but the room.
pub fn nothing_lent() -> Lent
    ensures { result ≡ nothing }
{
    Lent {
        fixed_short: false,
        has_surfaces: false,
        pixels: 0,
        masks: 0,
        has_flags: false,
        flags: 0,
    }
}

// One buffer of a fixed size, lent with n bytes.
pub fn fixed_lent(size: usize, n: usize) -> Lent
    ensures { result ≡ fixed_only size n }
{
    Lent {
        fixed_short: n < size,
        ..nothing_lent()
    }
}

// A session of a fixed size, lent with n bytes, and both surfaces.
pub fn surfaces_lent(size: usize, n: usize, pixels: usize, masks: usize) -> Lent
    ensures { result ≡ with_surfaces size n pixels masks }
{
    Lent {
        fixed_short: n < size,
        has_surfaces: true,
        pixels,
        masks,
        ..nothing_lent()
    }
}

// A session of a fixed size, lent with n bytes, and a flag byte per object.
pub fn flags_lent(size: usize, n: usize, flags: usize) -> Lent
    ensures { result ≡ with_flags size n flags }
{
    Lent {
        fixed_short: n < size,
        has_flags: true,
        flags,
        ..nothing_lent()
    }
}
