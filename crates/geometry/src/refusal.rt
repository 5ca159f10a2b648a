ghost use Rattle.std.specs.Prelude.{◌≡◌, Some};
ghost use Rattle.geometry.specs.Refusals.{number_of, refusal};
ghost use Rattle.geometry.specs.Words.{words_of, line_of};

use std::error::Error;
use std::fmt;

// Why a call is refused, by its number.
#[derive(Clone, Copy, Debug, PartialEq, Eq)]
pub enum Reason {
    BadLength = 1,
    BadSize = 2,
    BadBox = 3,
    BadTarget = 4,
    OutsideBox = 5,
    BadNumber = 6,
    ShortWorkList = 7,
    ShortAnswerList = 8,
    BadCount = 9,
    BadPlace = 10,
    NumberPresent = 11,
    NumberAbsent = 12,
    TwelveHeld = 13,
    EditClosed = 14,
    NoSuchNode = 15,
    MeterAtEnd = 16,
}

// A refusal, and the place in the input that it is about, or 0.
#[derive(Clone, Copy, Debug, PartialEq, Eq)]
pub struct Refusal {
    pub reason: Reason,
    pub place: usize,
}

impl Refusal {
    pub fn number(&self) -> u32
        ensures { result ≡ number_of self.now.reason }
    {
        self.reason as u32
    }
}

// A refusal about the whole call.
impl From<Reason> for Refusal {
    ghost from_gives = { λ reason r. r ≡ refusal reason 0 };

    fn from(reason: Reason) -> Refusal {
        Refusal { reason, place: 0 }
    }
}

impl fmt::Display for Reason {
    ghost output = { λ reason. Some (words_of reason) };

    fn fmt<W: fmt::Write>(&self, f: &mut fmt::Formatter<W>) -> fmt::Result {
        f.write_str(match self {
            Reason::BadLength => "the image has a wrong length",
            Reason::BadSize => "a size is out of range",
            Reason::BadBox => "a box is not upright, out of range, or not one place",
            Reason::BadTarget => "a target breaks the tree rules",
            Reason::OutsideBox => "an entry lies outside its node's box",
            Reason::BadNumber => "a number is out of range or occurs twice",
            Reason::ShortWorkList => "a work list is too short",
            Reason::ShortAnswerList => "there are more answers than places",
            Reason::BadCount => "a count is out of range",
            Reason::BadPlace => "a place is out of range",
            Reason::NumberPresent => "the number is in the plan already",
            Reason::NumberAbsent => "the number is not in the plan",
            Reason::TwelveHeld => "twelve are held already",
            Reason::EditClosed => "the edit is closed",
            Reason::NoSuchNode => "there is no such node",
            Reason::MeterAtEnd => "the meter is at its end",
        })
    }
}

impl fmt::Display for Refusal {
    ghost output = { λ refusal. Some (line_of refusal) };

    fn fmt<W: fmt::Write>(&self, f: &mut fmt::Formatter<W>) -> fmt::Result {
        let (number, place, words) = (self.number(), self.place, self.reason);
        write!(f, "refused {number} at {place}: {words}")
    }
}

impl Error for Refusal {}
