// The load of a room into lent pixels, masks and session (document 01, "What the bench and the player do").
#![tactic(auto)]

pub mod paint;

ghost use Rattle.std.specs.Prelude.{◌≡◌, ◌*◌, ◌≤◌, length, Ok};
ghost use Rattle.refusal.specs.Answer.{done};
ghost use Rattle.room.specs.Head.{Sound};
ghost use Rattle.room.specs.Picture.{plane_test};
ghost use Rattle.room.specs.Test.{strips, pictures_test};
ghost use Rattle.stored.specs.Layout.{session_size};
ghost use Rattle.stored.specs.Bytes.{emptied};
ghost use Rattle.load.specs.Load.{loaded_pixels, loaded_plane, loaded_masks, load_test, pixels_after, masks_after, session_after};

use crate::paint::{clear_plane, paint_background, paint_plane};
use refusal::Refusal;
use room::Room;
use room::picture::plane_in;
use room::test::{surfaces_lent, test_room};
use stored::SESSION_SIZE;

// Empties the session.
pub fn empty_session(session: &mut [u8])
    requires { session_size ≤ length session.old }
    ensures { session.new ≡ emptied session.old }
{
    number::buffer::fill(session, 0, SESSION_SIZE, 0);
}

// Paints the background of a room that passes the test.
fn load_pixels(room: &[u8], r: Room, pixels: &mut [u8])
    requires sound { Sound room.now r }
    requires pictures_pass { pictures_test room.now r ≡ Ok tt }
    requires pixels_fit { r.width * r.height ≤ length pixels.old }
    ensures { pixels.new ≡ loaded_pixels room.now r pixels.old }
{
    let strips = r.width / 8;
    paint_background(room, strips, r.height, r.smap, r.smap_end, pixels);
}

// Paints plane k, or clears it where it is missing.
fn load_plane(room: &[u8], r: Room, k: usize, masks: &mut [u8])
    requires plane_of_room { Sound room.now r × (1 ≤ k) × (k ≤ r.planes) }
    requires plane_passes { plane_test (strips r) r.height room.now r.image r.image_end k ≡ Ok tt }
    requires masks_fit { strips r * (r.planes * r.height) ≤ length masks.old }
    ensures { masks.new ≡ loaded_plane room.now r k masks.old }
{
    let strips = r.width / 8;
    match plane_in(room, r.image, r.image_end, k) {
        Some((b, z)) => paint_plane(room, strips, r.height, b, z, r.planes, k, masks),
        None => clear_plane(strips, r.height, r.planes, k, masks),
    }
}

// Paints planes 1 to N.
fn load_masks(room: &[u8], r: Room, masks: &mut [u8])
    requires sound { Sound room.now r }
    requires pictures_pass { pictures_test room.now r ≡ Ok tt }
    requires masks_fit { strips r * (r.planes * r.height) ≤ length masks.old }
    ensures { masks.new ≡ loaded_masks room.now r masks.old }
{
    for k in 1..r.planes + 1 {
        load_plane(room, r, k, masks);
    }
}

// Loads a room.
pub fn load(
    room: &[u8],
    session: &mut [u8],
    pixels: &mut [u8],
    masks: &mut [u8],
) -> Result<(), Refusal>
    ensures answer { result ≡ done (load_test room.now session.old pixels.old masks.old) }
    ensures session_after { session.new
        ≡ session_after (load_test room.now session.old pixels.old masks.old)
        session.old }
    ensures pixels_after { pixels.new
        ≡ pixels_after room.now (load_test room.now session.old pixels.old masks.old)
        pixels.old }
    ensures masks_after { masks.new
        ≡ masks_after room.now (load_test room.now session.old pixels.old masks.old)
        masks.old }
{
    let lent = surfaces_lent(SESSION_SIZE, session.len(), pixels.len(), masks.len());
    let r = test_room(room, lent)?;
    empty_session(session);
    load_pixels(room, r, pixels);
    load_masks(room, r, masks);
    Ok(())
}
