// What a comparison says.
ghost use Rattle.std.specs.Prelude.{◌≡◌, ◌++◌, Some, codes};
ghost use Rattle.std.specs.Fmt.{decimal};

use std::error::Error;
use std::fmt;

// No round separates the two states, or this one is the first to do so. An Option has this shape, but callers and printed answers read which
// answer it is, and `None` for alike would say nothing.
#[derive(Clone, Copy, PartialEq, Eq, Debug)]
pub enum Verdict {
    Alike,
    Apart { round: usize },
}

// Why a census was turned down: the list lent for it has fewer places than the source has states. It is no case of `Refusal`, since neither
// sheets nor the other calls of a comparer can be refused so.
#[derive(Clone, Copy, PartialEq, Eq, Debug)]
pub enum CensusRefusal {
    BufferTooShort = 7,
}

impl CensusRefusal {
    // The number by which users know the refusal. It goes on behind those of sheets. A method and no `From`: its name says which number is
    // meant.
    pub fn number(self) -> u8
        ensures { result ≡ 7 }
    {
        self as u8
    }
}

// What users read: the word and the number.
impl fmt::Display for CensusRefusal {
    ghost output = { λ _. Some (codes "refused " ++ decimal 7) };

    fn fmt<W: fmt::Write>(&self, f: &mut fmt::Formatter<W>) -> fmt::Result {
        write!(f, "refused {}", self.number())
    }
}

impl Error for CensusRefusal {}
