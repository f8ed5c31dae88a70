// Refusals 1 to 3: the tree, the needed blocks, the sizes.
ghost use Rattle.std.specs.Prelude.{◌≡◌, true, ◌+◌, ◌≤◌, length};
ghost use Rattle.room.specs.Head.{headed_in, background_in, needed_in, objects_right, trns_in, holds_index, index_in, room_of, sizes_right, sized, head_of};

use crate::{Parts, Room};
use block::tags::{CDHD, IM00, IMHD, OBCD, OBIM, RMHD, RMIH, RMIM, SMAP, TRNS};
use block::{count_tag, each_has, find_tag, need_tag};
use number::read_le16;
use refusal::{Reason, Refusal};

// The payloads of the first block with the tag `header`, of `n` bytes or more, and of the first with the tag `body`, in the list [at, end).
#[tactic(auto, unfolding(crate::specs::Head::headed_in))]
fn need_headed(
    s: &[u8],
    at: usize,
    end: usize,
    header: usize,
    n: usize,
    body: usize,
) -> Option<(usize, usize, usize)>
    requires { end ≤ length s.now }
    ensures { result ≡ headed_in header n body s.now at end }
{
    let (start, _) = need_tag(s, at, end, header, n)?;
    let (a, z) = need_tag(s, at, end, body, 0)?;
    Some((start, a, z))
}

// The needed blocks of RMIM's payload [im, end), beside RMHD's payload.
#[tactic(auto, unfolding(crate::specs::Head::background_in))]
fn background(s: &[u8], header: usize, im: usize, end: usize) -> Option<Parts>
    requires { end ≤ length s.now }
    ensures { result ≡ background_in s.now header im end }
{
    let (image_header, image, image_end) = need_headed(s, im, end, RMIH, 2, IM00)?;
    let (smap, smap_end) = find_tag(s, image, image_end, SMAP)?;
    Some(Parts {
        header,
        image_header,
        image,
        image_end,
        smap,
        smap_end,
    })
}

// The room's needed blocks.
#[tactic(auto, unfolding(crate::specs::Head::needed_in))]
fn needed(s: &[u8]) -> Option<Parts>
    ensures { result ≡ needed_in s.now }
{
    let (header, im, end) = need_headed(s, 8, s.len(), RMHD, 6, RMIM)?;
    background(s, header, im, end)
}

// Whether each OBCD has its CDHD, and each OBIM its IMHD.
#[tactic(auto, unfolding(crate::specs::Head::objects_right))]
fn objects_right(s: &[u8]) -> bool
    ensures { result ≡ objects_right s.now }
{
    each_has(s, 8, s.len(), OBCD, CDHD, 13) & each_has(s, 8, s.len(), OBIM, IMHD, 16)
}

// Whether TRNS, where there is one, has its byte.
fn holds_index(s: &[u8], trns: Option<(usize, usize)>) -> bool
    requires { trns ≡ trns_in s.now }
    ensures { result ≡ holds_index trns }
{
    match trns {
        Some((b, z)) => b + 8 < z,
        None => true,
    }
}

// The room's transparent index: TRNS's first byte, 255 where there is none.
fn index_in(s: &[u8], trns: Option<(usize, usize)>) -> u8
    requires { (trns ≡ trns_in s.now) × (holds_index trns ≡ true) }
    ensures { result ≡ index_in s.now trns }
{
    match trns {
        Some((b, _)) => s[b + 8],
        None => 255,
    }
}

// What RMHD, RMIH and TRNS say, with the OBCD blocks counted.
fn room_of(s: &[u8], p: Parts, trns: Option<(usize, usize)>) -> Room
    requires headers_inside { (p.header + 6 ≤ length s.now) × (p.image_header + 2 ≤ length s.now) }
    requires trns_found { (trns ≡ trns_in s.now) × (holds_index trns ≡ true) }
    ensures { result ≡ room_of s.now p }
{
    let header = p.header;
    let image_header = p.image_header;
    let width = read_le16(s, header);
    let height = read_le16(s, header + 2);
    let planes = read_le16(s, image_header);
    let objects = count_tag(s, 8, s.len(), OBCD);
    let clear = index_in(s, trns);
    Room {
        width,
        height,
        planes,
        objects,
        clear,
        image: p.image,
        image_end: p.image_end,
        smap: p.smap,
        smap_end: p.smap_end,
    }
}

// Whether the sizes are allowed.
#[tactic(auto, unfolding(crate::specs::Head::sizes_right))]
fn sizes_right(w: usize, h: usize, n: usize, objects: usize) -> bool
    ensures { result ≡ sizes_right w h n objects }
{
    (w % 8 == 0) & (8 <= w) & (w <= 1024) & (1 <= h) & (h <= 200) & (n <= 4) & (objects <= 128)
}

// Refusal 3.
#[tactic(auto, unfolding(crate::specs::Head::sized))]
fn sized_room(r: Room) -> Result<Room, Refusal>
    ensures { result ≡ sized r }
{
    if sizes_right(r.width, r.height, r.planes, r.objects) {
        Ok(r)
    } else {
        Err(Reason::OutOfSize.into())
    }
}

// Refusals 1, 2 and 3, in that order.
#[tactic(auto, unfolding(crate::specs::Head::head_of, crate::specs::Head::trns_in))]
pub fn read_head(s: &[u8]) -> Result<Room, Refusal>
    ensures { result ≡ head_of s.now }
{
    if !block::well_formed(s) {
        return Err(Reason::NotARoom.into());
    }
    let parts = needed(s).ok_or(Reason::BlockMissing)?;
    let trns = find_tag(s, 8, s.len(), TRNS);
    if !(objects_right(s) & holds_index(s, trns)) {
        return Err(Reason::BlockMissing.into());
    }
    sized_room(room_of(s, parts, trns))
}
