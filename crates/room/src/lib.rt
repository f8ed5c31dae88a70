// Rooms: what a room must hold, and its whole test (document 01, "Sizes", "Numbered refusals", "Blocks"). The record and the objects'
// headers and names are crate objects.
#![tactic(auto)]

pub mod head;
pub mod picture;
pub mod test;

// Where the needed blocks stand: the payloads of RMHD, RMIH and IM00, and the SMAP block with its header.
#[derive(Clone, Copy, Debug, PartialEq, Eq)]
pub struct Parts {
    pub header: usize,
    pub image_header: usize,
    pub image: usize,
    pub image_end: usize,
    pub smap: usize,
    pub smap_end: usize,
}

// A room's sizes, its transparent index, and where its picture stands: IM00's payload, and the SMAP block with its header.
#[derive(Clone, Copy, Debug, PartialEq, Eq)]
pub struct Room {
    pub width: usize,
    pub height: usize,
    pub planes: usize,
    pub objects: usize,
    pub clear: u8,
    pub image: usize,
    pub image_end: usize,
    pub smap: usize,
    pub smap_end: usize,
}

// The lengths of what a call is lent besides the room. `fixed_short`: a record, a session or a header is shorter than its fixed size.
#[derive(Clone, Copy, Debug, PartialEq, Eq)]
pub struct Lent {
    pub fixed_short: bool,
    pub has_surfaces: bool,
    pub pixels: usize,
    pub masks: usize,
    pub has_flags: bool,
    pub flags: usize,
}
