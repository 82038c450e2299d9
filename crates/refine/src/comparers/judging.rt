// Judge, strict and census, the users' calls, and the comparison of any plain system behind them.
ghost use Rattle.std.specs.Prelude.{◌≤◌, length};
ghost use Rattle.lts.specs.Environments.{surrounded};
ghost use Rattle.refine.specs.Ranks.{numbers};
ghost use Rattle.refine.specs.Runs.{Refined};
ghost use Rattle.refine.specs.Verdicts.{Compared, StrictlyJudged, Judged};
ghost use Rattle.refine.specs.Censuses.{AsMet, Counted, Fronted, Censused};

use super::Comparer;
use crate::pairs::Pair;
use crate::tables::copies::Copied;
use crate::tables::rows::Rows;
use crate::verdicts::{CensusRefusal, Verdict};
use crate::workspaces::Workspace;
use lts::environments::Surrounded;
use lts::sources::Source;
use lts::systems::{Bare, Lts};
use sheets::refusals::Refusal;
use std::alloc::{AllocError, Global};

impl Comparer {
    // Only this call can fail for want of memory.
    pub fn new(heap: Global) -> Result<Comparer, AllocError> {
        let rows = Rows::new(heap)?;
        let workspace = Workspace::new(heap)?;
        Ok(Comparer { rows, workspace })
    }

    // Whether two states of a source are alike in every environment, or the first round that separates them. The two states are two numbers,
    // here and below: whether the source has them is for the call to say.
    pub fn judge<S: Source>(
        &mut self,
        source: &S,
        left: usize,
        right: usize,
    ) -> Result<Verdict, Refusal>
        ensures { Judged (S.meaning source.now) left right result }
    {
        let pair = Pair::of(left, right, source.states())?;
        Ok(self.surround(source, pair))
    }

    // The same with all labels taken alike, time-outs too.
    pub fn strict<S: Source>(
        &mut self,
        source: &S,
        left: usize,
        right: usize,
    ) -> Result<Verdict, Refusal>
        ensures { StrictlyJudged (S.meaning source.now) left right result }
    {
        self.compare(&Bare { source }, left, right)
    }

    // Whether two states of a plain system are strongly bisimilar, or the first round that separates them.
    pub fn compare<L: Lts>(
        &mut self,
        lts: &L,
        left: usize,
        right: usize,
    ) -> Result<Verdict, Refusal>
        ensures { Compared (L.system lts.now) left right result }
    {
        let pair = Pair::of(left, right, lts.states())?;
        Ok(self.workspace.run(lts, pair))
    }

    // Writes the class of each state under judge to the front of the list, and answers how many classes there are.
    pub fn census<S: Source>(
        &mut self,
        source: &S,
        classes: &mut [usize],
    ) -> Result<usize, CensusRefusal>
        ensures { Censused (S.meaning source.now) classes.old classes.new result }
    {
        let states = source.states();
        if classes.len() < states {
            return Err(CensusRefusal::BufferTooShort);
        }
        // no round separates a state from itself, so the rounds go on until one is stable
        let pair = Pair {
            left: 0,
            right: 0,
            states,
        };
        let _ = self.surround(source, pair);
        let labels = Surrounded::of(source).labels();
        Ok(write_down(&self.workspace.begins[0..states], labels, classes))
    }

    // Refines a copy of the source in its environments. That the pair's states are there is asked at each step of the way: a pair goes from
    // the source to its surrounded system and to the table, which have as many states or more, and no one type has all three.
    fn surround<S: Source>(&mut self, source: &S, pair: Pair) -> Verdict
        requires { pair.states ≤ (S.meaning source.now).states }
        ensures { Refined (surrounded (S.meaning source.now)) pair.left pair.right result
            self.new.workspace.begins.items }
    {
        let bare = Bare { source };
        self.rows.list(&bare);
        let table = self.rows.table(&bare);
        let copied = Copied::of(source, table);
        self.workspace.run(&Surrounded::of(&copied), pair)
    }
}

// Writes class numbers to the front of a list, and answers how many there are. They are read off from where the codes of each class begin.
fn write_down(begins: &[u32], labels: usize, classes: &mut [usize]) -> usize
    requires some { 1 ≤ labels }
    requires room { length begins.now ≤ length classes.old }
    requires met { AsMet (length begins.now) (numbers labels begins.now) }
    ensures written { Fronted (numbers labels begins.now) classes.old classes.new }
    ensures counted { Counted (length begins.now) (numbers labels begins.now) result }
{
    let mut count = 0;
    // by place, since a proof knows nothing of what a loop over `iter_mut` writes under a `zip`
    for (state, begin) in begins.iter().enumerate() {
        let class = *begin as usize / labels;
        classes[state] = class;
        if class == count {
            count += 1;
        }
    }
    count
}
