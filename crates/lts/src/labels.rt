// What the number of a label stands for.
ghost use Rattle.std.specs.Prelude.{◌≡◌, Some};
ghost use Rattle.lts.specs.Labels.{label_of, word};

use crate::steps::signal_letter;
use std::fmt;

// A label of a source: that of an inner step, of a time-out, or of a signal.
#[derive(Clone, Copy, PartialEq, Eq, Debug)]
pub enum Label {
    Inner,
    TimeOut,
    Signal(usize),
}

// An inner step has the number 0, a time-out 1, and the signal i has 2 + i.
impl From<usize> for Label {
    ghost from_gives = { λ number label. label ≡ label_of number };

    fn from(number: usize) -> Label {
        match number {
            0 => Label::Inner,
            1 => Label::TimeOut,
            _ => Label::Signal(number - 2),
        }
    }
}

// Users write `tau`, `t` and the letter of a signal. A signal that has no letter is written `?`.
impl fmt::Display for Label {
    ghost output = { λ label. Some (word label) };

    fn fmt<W: fmt::Write>(&self, f: &mut fmt::Formatter<W>) -> fmt::Result {
        match self {
            Label::Inner => f.write_str("tau"),
            Label::TimeOut => f.write_str("t"),
            Label::Signal(signal) => f.write_char(signal_letter(*signal).unwrap_or('?')),
        }
    }
}
