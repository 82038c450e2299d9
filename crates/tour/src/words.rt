// How the tour writes answers, labels and positions.
use lts::environments::Position;
use lts::labels::Label;
use sheets::refusals::Refusal;
use sheets::replays::Call;
use std::fmt;

// `done`, or `refused` and the number.
#[derive(Clone, Copy)]
pub struct Answer(pub Result<(), Refusal>);

impl fmt::Display for Answer {
    fn fmt<W: fmt::Write>(&self, f: &mut fmt::Formatter<W>) -> fmt::Result {
        match self.0 {
            Ok(()) => write!(f, "done"),
            Err(refusal) => write!(f, "{refusal}"),
        }
    }
}

// What a label of a surrounded system says.
#[derive(Clone, Copy)]
pub enum Word {
    // a label of the source
    Own(Label),
    // the environment changes
    Stir,
    // the environment settles on a set of signals
    Settle(Set),
}

impl Word {
    // What the number of a label says where the source has this many signals.
    pub fn of(label: usize, signals: usize) -> Word {
        match Label::from(label) {
            Label::Signal(number) if number == signals => Word::Stir,
            Label::Signal(number) if number > signals => Word::Settle(Set(number - signals - 1)),
            own => Word::Own(own),
        }
    }
}

impl fmt::Display for Word {
    fn fmt<W: fmt::Write>(&self, f: &mut fmt::Formatter<W>) -> fmt::Result {
        match self {
            Word::Own(label) => write!(f, "{label}"),
            Word::Stir => write!(f, "stir"),
            Word::Settle(set) => write!(f, "settle on {set}"),
        }
    }
}

// A call of a script, with the label's word in place of its number.
#[derive(Clone, Copy)]
pub struct Order(pub Call);

impl fmt::Display for Order {
    fn fmt<W: fmt::Write>(&self, f: &mut fmt::Formatter<W>) -> fmt::Result {
        let (word, step) = match self.0 {
            Call::Note(step) => ("note", step),
            Call::Strike(step) => ("strike", step),
        };
        // a slip may name a signal that the sheet lacks, and that is a signal all the same
        let label = Label::from(step.label);
        write!(f, "{word} {} {label} {}", step.from, step.to)
    }
}

// A position: the state, and the environment if there is one.
#[derive(Clone, Copy)]
pub struct Place(pub Position);

impl fmt::Display for Place {
    fn fmt<W: fmt::Write>(&self, f: &mut fmt::Formatter<W>) -> fmt::Result {
        match self.0 {
            Position::Plain { state } => write!(f, "{state} plain"),
            Position::Under { allowed, state } => write!(f, "{state} under {}", Set(allowed)),
        }
    }
}

// A set of signals in braces, numbered as `Position` says. Five signals are the most that a sheet has.
#[derive(Clone, Copy)]
pub struct Set(usize);

impl fmt::Display for Set {
    fn fmt<W: fmt::Write>(&self, f: &mut fmt::Formatter<W>) -> fmt::Result {
        write!(f, "{{")?;
        // by hand, as `has_signal` of lts is private and this would be its one use outside
        for signal in (0..5).filter(|signal| (self.0 >> *signal) % 2 == 1) {
            write!(f, "{}", Label::Signal(signal))?;
        }
        write!(f, "}}")
    }
}
