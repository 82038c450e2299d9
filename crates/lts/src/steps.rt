// Steps and where they come from.
ghost use Rattle.std.specs.Prelude.{◌≡◌, List, [], ◌∷◌};
ghost use Rattle.std.specs.Iterator.{IsFinite, Drains};
ghost use Rattle.lts.specs.declared.steps.Step.{Step};
ghost use Rattle.lts.specs.Lists.{IsFilled, ReadsList};
ghost use Rattle.lts.specs.Systems.{moved_within};
ghost use Rattle.lts.specs.Origins.{side_number};
ghost use Rattle.lts.specs.Processes.{letter};

// A step that leaves a state. Its label is a number, since a plain system has labels of its own beside those of a source, and they are only
// compared and counted; what the number of a source's label stands for is its `Label`.
#[derive(Clone, Copy, PartialEq, Eq, Debug)]
pub struct Step {
    pub label: usize,
    pub target: usize,
}

impl Step {
    // The step as it is where n other states are numbered before its target. A target beyond the largest number is that number.
    pub fn moved(self, n: usize) -> Step
        ensures { result ≡ moved_within n self }
    {
        Step {
            target: self.target.saturating_add(n),
            ..self
        }
    }
}

// Puts the step behind those in the list if there is reserved room for it; it never allocates.
#[tactic(auto, using(crate::proofs::Filled::puts))]
pub fn put(into: &mut Vec<Step>, step: Step)
    ensures { IsFilled into.old into.new (step ∷ []) }
{
    if into.len() < into.capacity() {
        into.push_reserved(step);
    }
}

// Puts all steps of the iterator, as far as the room goes. It asks that the iterator may be called and ends: a program that would put steps
// for ever is refused.
pub fn put_all<I: Iterator<Item = Step>>(into: &mut Vec<Step>, steps: I)
    requires can { I.can_next steps }
    requires ends { IsFinite (I.remaining steps) }
    ensures { (xs : List Step) × Drains I.next_gives steps xs × IsFilled into.old into.new xs }
{
    for step in steps {
        put(into, step);
    }
}

// Puts the steps that a function finds at the places below the count: those of whatever list it reads there.
pub(crate) fn put_places<F: Fn(usize) -> Option<Step>>(
    count: usize,
    step_at: F,
    into: &mut Vec<Step>,
)
    requires { (f : F) (place : _) → F.FnMut.pre f place }
    ensures { (xs : List Step) → ReadsList (F.post step_at) count xs → IsFilled into.old into.new xs }
{
    put_all(into, (0..count).filter_map(step_at));
}

// One of two sides: the left, which has the number 0, and the right, which has 1.
#[derive(Clone, Copy, PartialEq, Eq, Debug)]
pub enum Side {
    Left = 0,
    Right = 1,
}

impl Side {
    // A method and no `From`: its name says which number is meant.
    pub fn number(self) -> u8
        ensures { result ≡ side_number self }
    {
        self as u8
    }
}

// Where a listed step was written down: a side, and a place below 512 among the steps of that side.
#[derive(Clone, Copy, PartialEq, Eq, Debug)]
pub struct Origin {
    pub side: Side,
    pub place: usize,
}

// The letter that a signal is written as. A match, so that each letter stands beside its signal.
pub fn signal_letter(signal: usize) -> Option<char>
    ensures { result ≡ letter signal }
{
    match signal {
        0 => Some('a'),
        1 => Some('b'),
        2 => Some('c'),
        3 => Some('d'),
        4 => Some('e'),
        _ => None,
    }
}
