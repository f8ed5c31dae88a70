// Strip j of a picture, the room's own or an object's image, over strip k of the surfaces.
ghost use Rattle.std.specs.Prelude.{◌≡◌, [], ℕ, ◌+◌, ◌-◌, ◌*◌, ◌≤◌, ◌<◌, eqb, length, Ok};
ghost use Rattle.grid.specs.Grid.{upd, boxed};
ghost use Rattle.grid.specs.Mask.{mask_over};
ghost use Rattle.room.specs.Head.{Sound};
ghost use Rattle.room.specs.Test.{strips, pictures_test};
ghost use Rattle.scene.specs.Painting.{pixel_layout, mask_layout, rebuilt_bytes};
ghost use Rattle.layers.specs.Decoded.{decoded};
ghost use Rattle.layers.specs.Source.{Readable, PlanePasses, strip_in, mask_in, picture_over, picture_opaque, planes_byte};

use layers::Source;
use layers::read::{none_clear, plane_rows};
use load::paint::paint_strip;
use room::Room;

// Strip j of a picture over strip k of the pixels, from row y on. Answers whether none of its pixels is transparent.
pub fn put_strip(
    room: &[u8],
    r: Room,
    m: Source,
    j: usize,
    k: usize,
    y: usize,
    pixels: &mut [u8],
) -> bool
    requires readable { Sound room.now r × Readable room.now m × (j < m.strips) }
    requires in_pixels { (k < strips r) × (y + m.height ≤ r.height) × (r.width * r.height ≤ length pixels.old) }
    ensures is_opaque { result ≡ picture_opaque r.clear (strip_in room.now m j) (8 * m.height) }
    ensures pixels_after { pixels.new
        ≡ upd (boxed r.width (8 * k) y 8 m.height (λ c q o. picture_over r.clear (strip_in room.now m j) (8 * q + c) o))
        pixels.old }
{
    let mut scratch = [0u8; 1600];
    let height = m.height;
    let clear = table::read_strip(
        room,
        m.strips,
        height,
        m.smap,
        m.smap_end,
        j,
        &mut scratch,
    ).unwrap();
    grid::blit_strip(
        pixels, r.width, r.height, k, y, &scratch, height, r.clear, clear,
    );
    none_clear(&scratch, 8 * height, r.clear, clear)
}

// Strip j of plane p of a picture over strip k of that plane, from row y on.
fn put_plane(
    room: &[u8],
    r: Room,
    m: Source,
    j: usize,
    p: usize,
    k: usize,
    y: usize,
    replace: bool,
    masks: &mut [u8],
)
    requires readable { Sound room.now r × Readable room.now m × (j < m.strips) }
    requires plane_passes { PlanePasses room.now m p × (1 ≤ p) × (p ≤ r.planes) }
    requires in_masks { (k < strips r) × (y + m.height ≤ r.height) × (strips r * (r.planes * r.height) ≤ length masks.old) }
    ensures { masks.new
        ≡ upd (boxed (strips r) k ((p - 1) * r.height + y) 1 m.height (λ c q o. mask_over replace (mask_in room.now m p j q) o))
        masks.old }
{
    let mut scratch = [0u8; 200];
    plane_rows(room, m, p, j, &mut scratch);
    grid::put_rows(
        masks,
        r.width / 8,
        r.height,
        r.planes,
        p,
        k,
        y,
        &scratch,
        m.height,
        replace,
    );
}

// The same in planes 1 to N.
pub fn put_planes(
    room: &[u8],
    r: Room,
    m: Source,
    j: usize,
    k: usize,
    y: usize,
    replace: bool,
    masks: &mut [u8],
)
    requires readable { Sound room.now r × Readable room.now m × (j < m.strips) }
    requires planes_pass { (p : ℕ) → 1 ≤ p → p ≤ r.planes → PlanePasses room.now m p }
    requires in_masks { (k < strips r) × (y + m.height ≤ r.height) × (strips r * (r.planes * r.height) ≤ length masks.old) }
    ensures { masks.new
        ≡ upd (planes_byte room.now m j (strips r) r.height r.planes k y replace) masks.old }
{
    for p in 1..r.planes + 1 {
        put_plane(room, r, m, j, p, k, y, replace, masks);
    }
}

// The room's own strip k: its background, and its planes in the place of what the masks held.
pub fn room_strip(room: &[u8], r: Room, k: usize, pixels: &mut [u8], masks: &mut [u8])
    requires pictures_pass { Sound room.now r × (pictures_test room.now r ≡ Ok tt) × (k < strips r) }
    requires surfaces_fit { (r.width * r.height ≤ length pixels.old) × (strips r * (r.planes * r.height) ≤ length masks.old) }
    ensures pixels_after { pixels.new
        ≡ rebuilt_bytes (pixel_layout (decoded room.now r)) [] (λ t. eqb t k) pixels.old }
    ensures masks_after { masks.new
        ≡ rebuilt_bytes (mask_layout (decoded room.now r)) [] (λ t. eqb t k) masks.old }
{
    let m = Source {
        payload: r.image,
        payload_end: r.image_end,
        smap: r.smap,
        smap_end: r.smap_end,
        strips: r.width / 8,
        height: r.height,
    };
    paint_strip(room, r.width / 8, r.height, r.smap, r.smap_end, k, pixels);
    put_planes(room, r, m, k, k, 0, true, masks);
}
