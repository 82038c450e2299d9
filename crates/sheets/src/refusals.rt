// The numbered refusals of the whole project, but for that of a census.
ghost use Rattle.std.specs.Prelude.{◌≡◌, ◌++◌, Some, codes};
ghost use Rattle.std.specs.Fmt.{decimal};
ghost use Rattle.sheets.specs.Refusals.{refusal_number};

use std::error::Error;
use std::fmt;

// Why a call was turned down. What is turned down changes nothing.
#[derive(Clone, Copy, PartialEq, Eq, Debug)]
pub enum Refusal {
    SizeOutOfLimits = 1,
    AbsentState = 2,
    AbsentLabel = 3,
    StepPresent = 4,
    SheetFull = 5,
    StepAbsent = 6,
}

impl Refusal {
    // The number by which users know the refusal. A method and no `From`: its name says which number is meant.
    pub fn number(self) -> u8
        ensures { result ≡ refusal_number self }
    {
        self as u8
    }
}

// What users read: the word and the number.
impl fmt::Display for Refusal {
    ghost output = { λ refusal. Some (codes "refused " ++ decimal (refusal_number refusal)) };

    fn fmt<W: fmt::Write>(&self, f: &mut fmt::Formatter<W>) -> fmt::Result {
        write!(f, "refused {}", self.number())
    }
}

impl Error for Refusal {}
