// Both comparers at work on the join of two sheets.
use crate::counts::{Opinions, Tally, word};
use crate::drafts::Drafts;
use crate::faults::Fault;
use crate::holding::Held;
use crate::pairs::Pair;
use lts::sources::Source;
use refine::comparers::Comparer;
use refine::verdicts::Verdict;
use sheets::joins::Join;
use sheets::refusals::Refusal;
use sheets::store::Sheet;
use std::alloc::{AllocError, Global};
use std::fmt;

// Two sheets and the main comparer, which serve for every join.
#[derive(Drop)]
pub struct Bench {
    heap: Global,
    left: Sheet,
    right: Sheet,
    comparer: Comparer,
}

// A pair of states on which the comparers disagree.
#[derive(Clone, Copy)]
pub struct Dispute {
    pair: Pair,
    opinions: Opinions,
}

impl fmt::Display for Dispute {
    fn fmt<W: fmt::Write>(&self, f: &mut fmt::Formatter<W>) -> fmt::Result {
        let Pair { left, right } = self.pair;
        let second = word(self.opinions.second);
        let main = word(self.opinions.main);
        write!(
            f,
            "The states {left} and {right} of a join are {second} to the second comparer, and {main} to the main one"
        )
    }
}

impl Bench {
    pub fn new(heap: Global) -> Result<Bench, AllocError> {
        Ok(Bench {
            heap,
            left: Sheet::blank(heap)?,
            right: Sheet::blank(heap)?,
            comparer: Comparer::new(heap)?,
        })
    }

    fn lay(&mut self, drafts: &Drafts) -> Result<(), Refusal> {
        drafts.left.write(&mut self.left)?;
        drafts.right.write(&mut self.right)
    }

    // What is said of the first states of both sheets. What is held borrows the join, so no function could make both for this call and the
    // next, and return them.
    pub fn ask(&mut self, drafts: &Drafts) -> Result<Opinions, Fault> {
        self.lay(drafts)?;
        let join = Join::of(&self.left, &self.right);
        let held = Held::of(self.heap, &join)?;
        let firsts = Pair {
            left: 0,
            right: self.left.states(),
        };
        Ok(held.opinions(&mut self.comparer, firsts)?)
    }

    // Counts what is said of every pair of states, each with itself too, and answers the first pair in dispute.
    pub fn compare(
        &mut self,
        drafts: &Drafts,
        tally: &mut Tally,
    ) -> Result<Option<Dispute>, Fault> {
        self.lay(drafts)?;
        let join = Join::of(&self.left, &self.right);
        let held = Held::of(self.heap, &join)?;
        tally.count_join();
        Ok(held.compare_all(&mut self.comparer, tally)?)
    }
}

impl<'a, S: Source> Held<'a, S> {
    fn compare_all(
        &self,
        comparer: &mut Comparer,
        tally: &mut Tally,
    ) -> Result<Option<Dispute>, Refusal> {
        let mut first = None;
        for left in 0..self.source.states() {
            for right in left..self.source.states() {
                let pair = Pair { left, right };
                let opinions = self.opinions(comparer, pair)?;
                tally.count_pair(pair, opinions);
                if !opinions.agree() {
                    first.get_or_insert(Dispute { pair, opinions });
                }
            }
        }
        Ok(first)
    }

    fn opinions(&self, comparer: &mut Comparer, pair: Pair) -> Result<Opinions, Refusal> {
        let main = comparer.judge(self.source, pair.left, pair.right)?;
        let strict = comparer.strict(self.source, pair.left, pair.right)?;
        Ok(Opinions {
            second: self.alike(pair),
            main: main == Verdict::Alike,
            strict: strict == Verdict::Alike,
        })
    }
}
