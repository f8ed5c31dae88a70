// The strip codes, and what each says of its strip.
ghost use Rattle.std.specs.Prelude.{◌≡◌};
ghost use Rattle.strip.specs.Picture.{kind_of, Width};

use crate::Kind;

// A strip with this many index bits.
fn coded(second: bool, vertical: bool, clear: bool, width: u8) -> Kind
    ensures { result ≡ Kind.Coded second vertical clear width }
{
    Kind::Coded {
        second,
        vertical,
        clear,
        width: u32::from(width),
    }
}

// The codes stand in families of five, whose index bits are 4 to 8.
#[tactic(auto, unfolding(crate::specs::Picture::kind_of, crate::specs::Picture::five_from))]
pub fn kind_of(code: u8) -> Kind
    ensures { (result ≡ kind_of code) × Width result }
{
    match code {
        0x01 => Kind::Raw,
        0x0E..=0x12 => coded(false, true, false, code - 0x0A),
        0x18..=0x1C => coded(false, false, false, code - 0x14),
        0x22..=0x26 => coded(false, true, true, code - 0x1E),
        0x2C..=0x30 => coded(false, false, true, code - 0x28),
        0x40..=0x44 => coded(true, false, false, code - 0x3C),
        0x54..=0x58 => coded(true, false, true, code - 0x50),
        0x68..=0x6C => coded(true, false, true, code - 0x64),
        0x7C..=0x80 => coded(true, false, false, code - 0x78),
        _ => Kind::Unknown,
    }
}
