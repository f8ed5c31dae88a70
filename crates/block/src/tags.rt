// The tags of a room's blocks, each as the big-endian number of its four bytes.
pub const ROOM: usize = 0x524F_4F4D;

pub const RMHD: usize = 0x524D_4844;

pub const RMIM: usize = 0x524D_494D;

pub const RMIH: usize = 0x524D_4948;

// An image state's block is IM00 + its number, and IM00 itself is the background's.
pub const IM00: usize = 0x494D_3030;

pub const SMAP: usize = 0x534D_4150;

// Plane k's block is ZP00 + k, from ZP01 on.
pub const ZP00: usize = 0x5A50_3030;

pub const OBIM: usize = 0x4F42_494D;

pub const IMHD: usize = 0x494D_4844;

pub const OBCD: usize = 0x4F42_4344;

pub const CDHD: usize = 0x4344_4844;

pub const OBNA: usize = 0x4F42_4E41;

pub const TRNS: usize = 0x5452_4E53;
