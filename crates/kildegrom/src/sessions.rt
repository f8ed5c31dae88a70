// The steps of a session: draws, hides and take-backs. Each promises its number and the lent bytes as crate play names them.
ghost use Rattle.std.specs.Prelude.{◌≡◌};
ghost use Rattle.scene.specs.declared.Call.TheVariants.{Make, TakeBack};
ghost use Rattle.scene.specs.declared.Place.TheVariants.{Last, Strip};
ghost use Rattle.scene.specs.declared.Step.TheVariants.{Draw, Hide};
ghost use Rattle.play.specs.Bytes.{lent, number_of, after_call};

use scene::{Call, Place, Step};

// Draws an object in a state where it last was.
#[unsafe(no_mangle)]
pub extern "C" fn kg_draw_last(
    room: &[u8],
    session: &mut [u8],
    pixels: &mut [u8],
    masks: &mut [u8],
    object: u32,
    state: u32,
) -> u32
    ensures number { result
        ≡ number_of room.now (lent session.old pixels.old masks.old) (Make (Draw object state Last)) }
    ensures lent_after { lent session.new pixels.new masks.new
        ≡ after_call room.now (lent session.old pixels.old masks.old) (Make (Draw object state Last)) }
{
    play::calls::call(
        room,
        session,
        pixels,
        masks,
        Call::Make(Step::Draw(object, state, Place::Last)),
    )
}

// Draws an object in a state at strip position (a, b), which is pixel (8a, 8b).
#[unsafe(no_mangle)]
pub extern "C" fn kg_draw_at(
    room: &[u8],
    session: &mut [u8],
    pixels: &mut [u8],
    masks: &mut [u8],
    object: u32,
    state: u32,
    a: u32,
    b: u32,
) -> u32
    ensures number { result
        ≡ number_of room.now (lent session.old pixels.old masks.old) (Make (Draw object state (Strip a b))) }
    ensures lent_after { lent session.new pixels.new masks.new
        ≡ after_call room.now (lent session.old pixels.old masks.old) (Make (Draw object state (Strip a b))) }
{
    play::calls::call(
        room,
        session,
        pixels,
        masks,
        Call::Make(Step::Draw(object, state, Place::Strip(a, b))),
    )
}

// Hides an object.
#[unsafe(no_mangle)]
pub extern "C" fn kg_hide(
    room: &[u8],
    session: &mut [u8],
    pixels: &mut [u8],
    masks: &mut [u8],
    object: u32,
) -> u32
    ensures number { result
        ≡ number_of room.now (lent session.old pixels.old masks.old) (Make (Hide object)) }
    ensures lent_after { lent session.new pixels.new masks.new
        ≡ after_call room.now (lent session.old pixels.old masks.old) (Make (Hide object)) }
{
    play::calls::call(room, session, pixels, masks, Call::Make(Step::Hide(object)))
}

// Takes the newest step back.
#[unsafe(no_mangle)]
pub extern "C" fn kg_take_back(
    room: &[u8],
    session: &mut [u8],
    pixels: &mut [u8],
    masks: &mut [u8],
) -> u32
    ensures number { result
        ≡ number_of room.now (lent session.old pixels.old masks.old) TakeBack }
    ensures lent_after { lent session.new pixels.new masks.new
        ≡ after_call room.now (lent session.old pixels.old masks.old) TakeBack }
{
    play::calls::call(room, session, pixels, masks, Call::TakeBack)
}
