// Painting of a background and of planes from a room's bytes, strip by strip (document 01, "Sizes", "Strips of pixels", "Strips of
// masks"). A block stands in [b, z) of the room, its header included, and has n strips of h rows. Its strips were tested before, so
// no call here can be refused: what reading a strip answers is not asked again.
ghost use Rattle.std.specs.Prelude.{◌≡◌, true, false, ℕ, ◌-◌, ◌+◌, ◌*◌, ◌≤◌, ◌<◌, length, Ok};
ghost use Rattle.grid.specs.Grid.{upd, boxed, Inside};
ghost use Rattle.grid.specs.Mask.{mask_over, rows_over, Plane};
ghost use Rattle.plane.specs.Mask.{rows_of, literals};
ghost use Rattle.table.specs.Table.{table_right};
ghost use Rattle.table.specs.Body.{row_values, pixel_at, mask_at};
ghost use Rattle.table.specs.Test.{rows_test, strip_test, block_test};
ghost use Rattle.load.specs.Pair.{Shows};

use grid::{join_run, put_rows};
use plane::{Rows, rows_at};

// Strip k of an SMAP block at column 8k of the pixels, over its full height. No pixel of a background is transparent.
pub fn paint_strip(room: &[u8], n: usize, h: usize, b: usize, z: usize, k: usize, pixels: &mut [u8])
    requires strip_in_block { (k < n) × (n ≤ 128) × (h ≤ 200) × (b ≤ z) × (z ≤ length room.now) }
    requires table_right { table_right false n room.now b z ≡ true }
    requires strip_passes { strip_test false n h room.now b z k ≡ Ok tt }
    requires pixels_fit { 8 * n * h ≤ length pixels.old }
    ensures { pixels.new
        ≡ upd (boxed (8 * n) (8 * k) 0 8 h (λ c r o. pixel_at n h room.now b z (8 * k + c) r)) pixels.old }
{
    let mut scratch = [0u8; 1600];
    let _ = table::read_strip(room, n, h, b, z, k, &mut scratch);
    grid::blit_strip(pixels, 8 * n, h, k, 0, &scratch, h, 0, false);
}

// Two strips of 8 by h pixels, given by rows, side by side from column 8 * k on: 16 bytes in one place of the surface a row. In a wide room
// every row is another line of the processor's cache, so a line is fetched once for both.
fn blit_two(pixels: &mut [u8], w: usize, h: usize, k: usize, left: &[u8], right: &[u8])
    requires { Inside (length pixels.old) w h (8 * k) 0 16 h × (8 * h ≤ length left.now) × (8 * h ≤ length right.now) }
    ensures { (f : ℕ → ℕ → ℕ) → Shows 0 h left.now f → Shows 8 h right.now f
        → pixels.new ≡ upd (boxed w (8 * k) 0 16 h (λ c r o. f c r)) pixels.old }
{
    for r in 0..h {
        grid::blit_strip(pixels, w, h, k, r, &left[8 * r..], 1, 0, false);
        grid::blit_strip(pixels, w, h, k + 1, r, &right[8 * r..], 1, 0, false);
    }
}

// Strips k and k + 1 of an SMAP block, at columns 8k and 8k + 8, by way of two scratch buffers.
fn paint_two(
    room: &[u8],
    n: usize,
    h: usize,
    b: usize,
    z: usize,
    k: usize,
    left: &mut [u8],
    right: &mut [u8],
    pixels: &mut [u8],
)
    requires strips_in_block { (k + 1 < n) × (n ≤ 128) × (h ≤ 200) × (b ≤ z) × (z ≤ length room.now) }
    requires table_right { table_right false n room.now b z ≡ true }
    requires strips_pass { (strip_test false n h room.now b z k ≡ Ok tt) × (strip_test false n h room.now b z (k + 1) ≡ Ok tt) }
    requires buffers_fit { (8 * h ≤ length left.old) × (8 * h ≤ length right.old) × (8 * n * h ≤ length pixels.old) }
    ensures { pixels.new
        ≡ upd (boxed (8 * n) (8 * k) 0 16 h (λ c r o. pixel_at n h room.now b z (8 * k + c) r)) pixels.old }
{
    let _ = table::read_strip(room, n, h, b, z, k, left);
    let _ = table::read_strip(room, n, h, b, z, k + 1, right);
    blit_two(pixels, 8 * n, h, k, left, right);
}

// Every strip of an SMAP block, two by two.
pub fn paint_background(room: &[u8], n: usize, h: usize, b: usize, z: usize, pixels: &mut [u8])
    requires block_in_room { (n ≤ 128) × (h ≤ 200) × (b ≤ z) × (z ≤ length room.now) }
    requires block_passes { block_test false n h room.now b z ≡ Ok tt }
    requires pixels_fit { 8 * n * h ≤ length pixels.old }
    ensures { pixels.new
        ≡ upd (boxed (8 * n) 0 0 (8 * n) h (λ x y o. pixel_at n h room.now b z x y)) pixels.old }
{
    let mut left = [0u8; 1600];
    let mut right = [0u8; 1600];
    for pair in 0..n / 2 {
        paint_two(room, n, h, b, z, 2 * pair, &mut left, &mut right, pixels);
    }
    if n % 2 == 1 {
        paint_strip(room, n, h, b, z, n - 1, pixels);
    }
}

// The rows of a mask strip's body joined to strip k of plane `plane` of the masks. Runs of zero rows are passed over.
fn join_body(
    body: &[u8],
    n: usize,
    h: usize,
    planes: usize,
    plane: usize,
    k: usize,
    masks: &mut [u8],
)
    requires body_passes { rows_test (rows_of body.now h (literals 0)) ≡ Ok tt }
    requires in_plane { Plane (length masks.old) n h planes plane k 0 h }
    ensures { masks.new
        ≡ upd (boxed n k ((plane - 1) * h) 1 h (rows_over (row_values (rows_of body.now h (literals 0))) false)) masks.old }
{
    // What an operation asks says how far the body and the rows go on, so no `for` counts them.
    let mut at: usize = 0;
    let mut i: usize = 0;
    while i < h {
        match rows_at(body, at, h - i) {
            Ok(Rows::Literals(m)) => {
                put_rows(masks, n, h, planes, plane, k, i, &body[at + 1..], m, false);
                i += m;
                at = at + 1 + m;
            }
            Ok(Rows::Copies(m)) => {
                join_run(masks, n, h, planes, plane, k, i, body[at + 1], m);
                i += m;
                at += 2;
            }
            Err(_) => return,
        }
    }
}

// Strip k of a ZP block joined to plane `plane` of the masks, over its full height. Plane p, strip s, row y stands at ((p - 1) * h + y) * n + s.
// A strip without a body is all zero: it changes nothing.
fn join_strip(
    room: &[u8],
    n: usize,
    h: usize,
    b: usize,
    z: usize,
    planes: usize,
    plane: usize,
    k: usize,
    masks: &mut [u8],
)
    requires strip_in_block { (k < n) × (n ≤ 128) × (h ≤ 200) × (b ≤ z) × (z ≤ length room.now) }
    requires table_right { table_right true n room.now b z ≡ true }
    requires strip_passes { strip_test true n h room.now b z k ≡ Ok tt }
    requires masks_fit { (planes ≤ 4) × (1 ≤ plane) × (plane ≤ planes) × (n * (planes * h) ≤ length masks.old) }
    ensures { masks.new
        ≡ upd (boxed n k ((plane - 1) * h) 1 h (λ c r o. mask_over false (mask_at n h room.now b z k r) o)) masks.old }
{
    if table::offset_at(room, true, b, k) != 0 {
        join_body(
            table::strip_body(room, true, n, b, z, k),
            n,
            h,
            planes,
            plane,
            k,
            masks,
        );
    }
}

// Every strip of a ZP block, over a plane that is cleared first: a strip then costs what its body holds, and its zero rows nothing more.
pub fn paint_plane(
    room: &[u8],
    n: usize,
    h: usize,
    b: usize,
    z: usize,
    planes: usize,
    plane: usize,
    masks: &mut [u8],
)
    requires block_in_room { (n ≤ 128) × (h ≤ 200) × (b ≤ z) × (z ≤ length room.now) }
    requires block_passes { block_test true n h room.now b z ≡ Ok tt }
    requires masks_fit { (planes ≤ 4) × (1 ≤ plane) × (plane ≤ planes) × (n * (planes * h) ≤ length masks.old) }
    ensures { masks.new
        ≡ upd (boxed n 0 ((plane - 1) * h) n h (λ s y o. mask_at n h room.now b z s y)) masks.old }
{
    clear_plane(n, h, planes, plane, masks);
    for s in 0..n {
        join_strip(room, n, h, b, z, planes, plane, s, masks);
    }
}

// A missing plane is all zero. `planes` says how many planes the masks hold.
pub fn clear_plane(n: usize, h: usize, planes: usize, plane: usize, masks: &mut [u8])
    requires { (n ≤ 128) × (h ≤ 200) × (planes ≤ 4) × (1 ≤ plane) × (plane ≤ planes) × (n * (planes * h) ≤ length masks.old) }
    ensures { masks.new ≡ upd (boxed n 0 ((plane - 1) * h) n h (λ s y o. 0)) masks.old }
{
    number::buffer::fill(masks, (plane - 1) * h * n, h * n, 0);
}
