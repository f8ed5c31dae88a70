// The test of the picture in an IM block, a room's background or an object's image: SMAP, then its planes. It stands in the payload [b, z) of its
// block and has n strips of h rows.
ghost use Rattle.std.specs.Prelude.{◌≡◌, ◌≤◌, length};
ghost use Rattle.table.specs.Test.{leftmost};
ghost use Rattle.room.specs.Picture.{plane_in, plane_test, smap_and_planes_test};

use block::find_tag;
use block::tags::ZP00;
use refusal::Refusal;
use table::test_block;

// Where plane k stands, with its header.
pub fn plane_in(room: &[u8], b: usize, z: usize, k: usize) -> Option<(usize, usize)>
    requires { (k ≤ 4) × (z ≤ length room.now) }
    ensures { result ≡ plane_in room.now b z k }
{
    find_tag(room, b, z, ZP00 + k)
}

// The test of plane k.
#[tactic(auto, unfolding(crate::specs::Picture::plane_test))]
fn test_plane(room: &[u8], b: usize, z: usize, n: usize, h: usize, k: usize) -> Result<(), Refusal>
    requires { (n ≤ 128) × (h ≤ 200) × (k ≤ 4) × (z ≤ length room.now) }
    ensures { result ≡ plane_test n h room.now b z k }
{
    match plane_in(room, b, z, k) {
        Some((plane, end)) => test_block(room, true, n, h, plane, end),
        None => Ok(()),
    }
}

// The tests of planes 1 to `planes`.
fn test_planes(
    room: &[u8],
    b: usize,
    z: usize,
    n: usize,
    h: usize,
    planes: usize,
) -> Result<(), Refusal>
    requires { (n ≤ 128) × (h ≤ 200) × (planes ≤ 4) × (z ≤ length room.now) }
    ensures { result ≡ leftmost (plane_test n h room.now b z) 1 planes }
{
    for k in 1..=planes {
        test_plane(room, b, z, n, h, k)?;
    }
    Ok(())
}

// The tests of the SMAP block [smap, end) and of planes 1 to `planes`.
#[tactic(auto, unfolding(crate::specs::Picture::smap_and_planes_test))]
pub fn test_im(
    room: &[u8],
    b: usize,
    z: usize,
    smap: usize,
    end: usize,
    n: usize,
    h: usize,
    planes: usize,
) -> Result<(), Refusal>
    requires sizes_allowed { (n ≤ 128) × (h ≤ 200) × (planes ≤ 4) × (z ≤ length room.now) }
    requires smap_in_room { (smap ≤ end) × (end ≤ length room.now) }
    ensures { result ≡ smap_and_planes_test planes n h room.now b z smap end }
{
    test_block(room, false, n, h, smap, end)?;
    test_planes(room, b, z, n, h, planes)
}
