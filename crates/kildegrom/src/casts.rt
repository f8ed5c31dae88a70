// The whole cast of a scene in one call.
ghost use Rattle.std.specs.Prelude.{◌≡◌};
ghost use Rattle.cast.specs.Call.{number_in, cast_list, cast_frame};

use answers::number;
use cast::Actor;

// Paints actors back to front: the list is put in painting order in place, and each is stamped on the frame in that order.
#[unsafe(no_mangle)]
pub extern "C" fn kg_cast(
    list: &mut [Actor],
    frame: &mut [u8],
    masks: &[u8],
    pictures: &[u8],
    w: u32,
    h: u32,
    n: u32,
    clear: u8,
) -> u32
    ensures { (result ≡ number_in list.old frame.old masks.now pictures.now w h n)
        × (list.new ≡ cast_list result list.old)
        × (frame.new ≡ cast_frame result masks.now pictures.now w h n clear list.old frame.old) }
{
    number(cast::cast(list, frame, masks, pictures, w, h, n, clear))
}
