// Why a call is refused: a reason for each numbered refusal of the rules, with its words. A clause sees a refusal as its number.
#![tactic(auto)]

use std::error::Error;
use std::fmt;
use std::marker::Model;

/// What is wrong, in the order of the rules' numbers.
#[derive(Clone, Copy, Debug, PartialEq, Eq, Hash)]
pub enum Reason {
    NotARoom,
    BlockMissing,
    OutOfSize,
    BufferShort,
    TableWrong,
    CodeUnknown,
    BytesRunOut,
    PastTheStrip,
    OtherSession,
    HistoryFull,
    NoSuchObject,
    PlaceNotAllowed,
    NothingToTakeBack,
    PointOutside,
    AnimationWrong,
    SizesDiffer,
    CastTooLarge,
}

/// A refusal, by its reason: the error of each call that answers a `Result`.
#[derive(Clone, Copy, Debug, PartialEq, Eq)]
pub struct Refusal {
    reason: Reason,
}

impl Model for Refusal {
    ghost use Rattle.std.specs.Prelude.{ℕ};

    ghost Value = { ℕ };

    ghost use Rattle.refusal.specs.Refusal.{number_in, refusal_of, refusal_of-number_in};

    ghost view = { number_in };

    ghost inverse = { refusal_of };

    ghost inverse_ok = { λ a h. refusal_of-number_in a };
}

impl Refusal {
    ghost use Rattle.std.specs.Prelude.{◌≡◌};

    /// Its number in the rules.
    pub fn number(self) -> u8
        ensures { result ≡ self }
    {
        match self.reason {
            Reason::NotARoom => 1,
            Reason::BlockMissing => 2,
            Reason::OutOfSize => 3,
            Reason::BufferShort => 4,
            Reason::TableWrong => 5,
            Reason::CodeUnknown => 6,
            Reason::BytesRunOut => 7,
            Reason::PastTheStrip => 8,
            Reason::OtherSession => 9,
            Reason::HistoryFull => 10,
            Reason::NoSuchObject => 11,
            Reason::PlaceNotAllowed => 12,
            Reason::NothingToTakeBack => 13,
            Reason::PointOutside => 14,
            Reason::AnimationWrong => 15,
            Reason::SizesDiffer => 16,
            Reason::CastTooLarge => 18,
        }
    }
}

impl From<Reason> for Refusal {
    ghost use Rattle.std.specs.Prelude.{◌≡◌};
    ghost use Rattle.refusal.specs.Reason.{number_of};

    ghost from_gives = { λ reason refusal. refusal ≡ number_of reason };

    fn from(reason: Reason) -> Refusal {
        Refusal { reason }
    }
}

impl fmt::Display for Reason {
    fn fmt<W: fmt::Write>(&self, f: &mut fmt::Formatter<W>) -> fmt::Result {
        f.write_str(match self {
            Reason::NotARoom => "not one ROOM block filling the slice, or a block of it is wrong",
            Reason::BlockMissing => "a needed block is missing or too short",
            Reason::OutOfSize =>
                "width, height, planes, object count or a picture's size is out of range",
            Reason::BufferShort => "a lent buffer is too short",
            Reason::TableWrong => "a strip table doesn't fit its block, or an offset is wrong",
            Reason::CodeUnknown => "unknown strip code",
            Reason::BytesRunOut => "strip bytes run out",
            Reason::PastTheStrip => "an operation passes the end of the strip",
            Reason::OtherSession => "the session isn't one that this room gives",
            Reason::HistoryFull => "the history holds 64 steps",
            Reason::NoSuchObject => "no such object, image state or shown entry",
            Reason::PlaceNotAllowed => "the place isn't allowed",
            Reason::NothingToTakeBack => "nothing to take back",
            Reason::PointOutside => "the point is outside the room",
            Reason::AnimationWrong => "an animation number, record, window or limb state is wrong",
            Reason::SizesDiffer => "the two rooms differ in width or height",
            Reason::CastTooLarge => "a cast has more than 32 actors",
        })
    }
}

impl fmt::Display for Refusal {
    fn fmt<W: fmt::Write>(&self, f: &mut fmt::Formatter<W>) -> fmt::Result {
        self.reason.fmt(f)
    }
}

impl Error for Refusal {}
