// Making and finding classes.
ghost use Rattle.std.specs.Prelude.{◌≡◌, ℕ, ◌<◌, ◌&&◌, [], ◌∷◌, ◌++◌, length, MatchOption, ◌==◌, slice_index};
ghost use Rattle.refine.specs.Rankings.{ranked_marked, RankedFit};
ghost use Rattle.refine.specs.Chains.{bucket as bucket_of, class as class_of};

use super::{BUCKETS, Chains};
use crate::classes::Class;
use crate::marks::Marks;
use crate::rankings::Ranking;
use crate::workspaces::MOST_STATES;
use std::alloc::{AllocError, Global};

impl Chains {
    // No classes, and room for as many as a plain system has states.
    pub(crate) fn new(heap: Global) -> Result<Chains, AllocError> {
        let heads = vec![in heap; 0u16; BUCKETS]?;
        let made = Vec::with_capacity(heap, MOST_STATES)?;
        Ok(Chains { heads, made })
    }

    pub(crate) fn len(&self) -> usize
        ensures { result ≡ length self.now.made.items }
    {
        self.made.len()
    }

    // Forgets every class.
    pub(crate) fn clear(&mut self)
        ensures { self.new.made.items ≡ [] }
    {
        self.made.clear();
        self.heads.fill(0);
    }

    // The class with this hash whose first state's steps are all marked.
    pub(crate) fn seek(&self, ranking: &Ranking, marks: &Marks, hash: u64) -> Option<usize>
        ensures { MatchOption result
            ((c : ℕ) → RankedFit ranking.now marks.now hash self.now.made.items c → ⊥)
            (RankedFit ranking.now marks.now hash self.now.made.items) }
    {
        // by hand: `successors` counts as endless, so `find` takes it only under a `take`, whose bound would say nothing of the chain
        let mut link = self.heads[bucket(hash)] as usize;
        while link > 0 {
            let c = link - 1;
            let made = self.made[c];
            if fits(made, ranking, marks, hash) {
                return Some(c);
            }
            link = made.next as usize;
        }
        None
    }

    // Makes a class with this first state, and answers its number.
    pub(crate) fn add(&mut self, hash: u64, first: usize) -> usize
        requires room { length self.old.made.items < 3168 }
        requires small { first < 3168 }
        ensures number { result ≡ length self.old.made.items }
        ensures made { let next = slice_index self.old.heads.items (bucket_of hash) in
            self.new.made.items ≡ self.old.made.items ++ class_of hash first next ∷ [] }
    {
        let number = self.made.len();
        let b = bucket(hash);
        let next = self.heads[b];
        self.made.push_reserved(Class {
            hash,
            first: first as u16,
            next,
        });
        self.heads[b] = number as u16 + 1;
        number
    }
}

// Whether a class has the hash and its first state's steps are all marked.
fn fits(made: Class, ranking: &Ranking, marks: &Marks, hash: u64) -> bool
    ensures { result ≡ (made.hash == hash && ranked_marked ranking.now marks.now made.first) }
{
    made.hash == hash && marks.cover(&ranking.signature(made.first as usize))
}

fn bucket(hash: u64) -> usize
    ensures value { result ≡ bucket_of hash }
    ensures small { result < 4096 }
{
    (hash % BUCKETS as u64) as usize
}
