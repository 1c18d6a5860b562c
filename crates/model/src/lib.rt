// The leaf types of the record store. What they mean stands in specs/; the only functions here turn a kind into its letter and back, and a
// reply into its number, by which it is shown.
#![tactic(auto)]

ghost use Rattle.std.specs.Prelude.{◌≡◌, Some};
ghost use Rattle.std.specs.Option.{ok_or};
ghost use Rattle.std.specs.Fmt.{decimal};
ghost use Rattle.model.specs.Forms.{pick};
ghost use Rattle.model.specs.Replies.{number};
ghost use Rattle.model.specs.Texts.{kinds};
ghost use Rattle.model.specs.Values.{kind_letter};

use std::fmt;

// A clearance, or the class of a part: a level, and a set of slot marks, slot 1 as the lowest bit.
#[derive(Clone, Copy, Debug, PartialEq, Eq)]
pub struct Class {
    pub level: u8,
    pub marks: u32,
}

// What a field holds.
#[derive(Clone, Copy)]
pub enum Value {
    Blank,
    Count(u32),
    // A rate that is a number.
    Rate(f32),
    // A rate that is none, by its bits: a float of the logic has one not-a-number, and that one has no bits.
    Nan(u32),
    Classed(Class),
    Hidden,
}

// What a column holds.
#[derive(Clone, Copy, Debug, PartialEq, Eq)]
pub enum Kind {
    Counts,
    Rates,
    Classes,
}

// A letter that stands for no kind.
#[derive(Clone, Copy, Debug, PartialEq, Eq)]
pub struct NoKind(pub u8);

// A kind's letter, the mark of its values.
impl From<Kind> for u8 {
    ghost from_gives = { λ k letter. letter ≡ kind_letter k };

    #[tactic(auto, unfolding(crate::specs::Values::kind_letter))]
    fn from(k: Kind) -> u8 {
        match k {
            Kind::Counts => b'N',
            Kind::Rates => b'F',
            Kind::Classes => b'K',
        }
    }
}

// The kind that a letter stands for.
impl TryFrom<u8> for Kind {
    type Error = NoKind;

    ghost try_from_gives = { λ letter r. r ≡ ok_or (pick kinds letter) record { 0 = letter } };

    fn try_from(letter: u8) -> Result<Self, NoKind> {
        match letter {
            b'N' => Ok(Kind::Counts),
            b'F' => Ok(Kind::Rates),
            b'K' => Ok(Kind::Classes),
            _ => Err(NoKind(letter)),
        }
    }
}

// A class together with a value.
#[derive(Clone, Copy)]
pub struct Field {
    pub class: Class,
    pub value: Value,
}

// What is said to whoever asks. Each has a number: specs/Replies.antt.
#[derive(Clone, Copy, Debug, PartialEq, Eq)]
pub enum Reply {
    Done,
    LeftOut,
    BadLine,
    NoTable,
    TableAbove,
    NamedTwice,
    NoColumn,
    NoRow,
    NotNamed,
    Misfit,
    NoBerth,
    BerthFull,
    NotYours,
    Uncovers,
    RoomShort,
    SheetLong,
    BadSheet,
    RuleBroken,
}

// A reply's number.
impl From<Reply> for u8 {
    ghost from_gives = { λ r n. n ≡ number r };

    #[tactic(auto, unfolding(crate::specs::Replies::number))]
    fn from(r: Reply) -> u8 {
        match r {
            Reply::Done => 0,
            Reply::LeftOut => 1,
            Reply::BadLine => 2,
            Reply::NoTable => 3,
            Reply::TableAbove => 4,
            Reply::NamedTwice => 5,
            Reply::NoColumn => 6,
            Reply::NoRow => 7,
            Reply::NotNamed => 8,
            Reply::Misfit => 9,
            Reply::NoBerth => 10,
            Reply::BerthFull => 11,
            Reply::NotYours => 12,
            Reply::Uncovers => 13,
            Reply::RoomShort => 14,
            Reply::SheetLong => 22,
            Reply::BadSheet => 20,
            Reply::RuleBroken => 21,
        }
    }
}

// A reply is shown by its number, in decimal.
impl fmt::Display for Reply {
    ghost output = { λ r. Some (decimal (number r)) };

    fn fmt<W: fmt::Write>(&self, f: &mut fmt::Formatter<W>) -> fmt::Result {
        write!(f, "{}", u8::from(*self))
    }
}
