// Marking the codes of a state, and asking whether those of another are marked.
ghost use Rattle.std.specs.Prelude.{◌≡◌, ℕ, ◌<◌, ◌==◌, slice_index};
ghost use Rattle.refine.specs.Codes.{weigh};
ghost use Rattle.refine.specs.Rankings.{signed, all_marked};

use super::Marks;
use crate::codes::{Signature, weight};
use std::alloc::{AllocError, Global};

// As many codes as the largest plain system has: 3,168 states and 40 labels.
const CODES: usize = 126720;

impl Marks {
    pub(crate) fn new(heap: Global) -> Result<Marks, AllocError> {
        let stamps = vec![in heap; 0u32; CODES]?;
        Ok(Marks { stamps, last: 0 })
    }

    // Marks the codes of this signature and no others, and answers the sum of their weights.
    #[tactic(auto, using(crate::proofs::Weights::weigh_most))]
    pub(crate) fn mark(&mut self, signature: &Signature) -> u64
        ensures marks { (c : ℕ) → c < 126720 →
            (slice_index self.new.stamps.items c == self.new.last) ≡ signed signature.now c }
        ensures weight { result ≡ weigh (signed signature.now) 126720 }
    {
        self.renew();
        // taken out of `self` before the loop, which would otherwise read both again at each step
        let last = self.last;
        let stamps = self.stamps.as_mut_slice();
        let mut hash = 0;
        for step in signature.steps {
            let code = signature.code(*step);
            if stamps[code] != last {
                stamps[code] = last;
                hash += weight(code);
            }
        }
        hash
    }

    // Takes a stamp that no code has. After the last one there is, all begin anew.
    fn renew(&mut self)
        ensures { (c : ℕ) → slice_index self.new.stamps.items c < self.new.last }
    {
        if self.last < u32::MAX {
            self.last += 1;
            return;
        }
        self.stamps.fill(0);
        self.last = 1;
    }

    // Whether the codes of this signature are all marked.
    pub(crate) fn cover(&self, signature: &Signature) -> bool
        ensures { result ≡ all_marked signature.now self.now }
    {
        // taken out as for `mark`
        let last = self.last;
        let stamps = self.stamps.as_slice();
        signature
            .steps
            .iter()
            .all(|step| stamps[signature.code(*step)] == last)
    }
}
