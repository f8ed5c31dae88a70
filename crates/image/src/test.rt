// The test of an object's image: refusals 2 and 5 to 8, SMAP before its planes as for the room.
ghost use Rattle.std.specs.Prelude.{◌≡◌, ◌≤◌, length};
ghost use Rattle.image.specs.Fault.{image_test};

use block::find_tag;
use block::tags::SMAP;
use refusal::{Reason, Refusal};
use room::picture::test_im;

// The test of the image of n strips of h rows in the payload [b, z), with planes 1 to `planes`.
#[tactic(auto, unfolding(crate::specs::Fault::image_test))]
pub fn test_image(
    room: &[u8],
    b: usize,
    z: usize,
    n: usize,
    h: usize,
    planes: usize,
) -> Result<(), Refusal>
    requires { (n ≤ 128) × (h ≤ 200) × (planes ≤ 4) × (z ≤ length room.now) }
    ensures { result ≡ image_test planes n h room.now b z }
{
    let (smap, end) = find_tag(room, b, z, SMAP).ok_or(Reason::BlockMissing)?;
    test_im(room, b, z, smap, end, n, h, planes)
}
