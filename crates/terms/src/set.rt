// Sets of terms: each method takes a set by value, and those that change it hand the set back.
ghost use Rattle.std.specs.Prelude.{◌≡◌, drop, slice_get};
ghost use Rattle.terms.specs.Terms.{only, holds_term, with_term, with_term_if, without_term, ranks, without_first, term_count};

use crate::{Consequence, Ranks, TermSet};

impl TermSet {
    pub fn none() -> Self
        ensures { result.0 ≡ 0 }
    {
        TermSet(0)
    }

    // The set of one term.
    pub fn of(t: Consequence) -> Self
        ensures { result.0 ≡ only t }
    {
        TermSet(t.bit())
    }

    #[tactic(auto, using(crate::proofs::Operations::holds_is))]
    pub fn holds(self, t: Consequence) -> bool
        ensures { result ≡ holds_term self.0 t }
    {
        self.0 & t.bit() != 0
    }

    // The set with one more term.
    #[tactic(auto, using(crate::proofs::Operations::with_is))]
    pub fn with(self, t: Consequence) -> Self
        ensures { result.0 ≡ with_term self.0 t }
    {
        TermSet(self.0 | t.bit())
    }

    // The set with one more term where the test holds.
    pub fn with_if(self, test: bool, t: Consequence) -> Self
        ensures { result.0 ≡ with_term_if test self.0 t }
    {
        if test { self.with(t) } else { self }
    }

    // The set without a term.
    #[tactic(auto, using(crate::proofs::Operations::without_is))]
    pub fn without(self, t: Consequence) -> Self
        ensures { result.0 ≡ without_term self.0 t }
    {
        TermSet(self.0 & !t.bit())
    }

    // The rank of the most severe term.
    #[tactic(auto, using(crate::proofs::RankLists::severe_first, crate::proofs::RankLists::severe_none))]
    pub fn most_severe(self) -> Option<u32>
        ensures { result ≡ slice_get (ranks self.0) 0 }
    {
        if self.0 == 0 {
            None
        } else {
            Some(self.0.trailing_zeros() + 1)
        }
    }

    // The set without its most severe term.
    pub fn rest(self) -> Self
        ensures set { result.0 ≡ without_first self.0 }
        ensures ranks { ranks result.0 ≡ drop 1 (ranks self.0) }
    {
        let s = self.0;
        if s == 0 {
            self
        } else {
            TermSet(s - (1 << s.trailing_zeros()))
        }
    }

    // The ranks of the terms, lowest first.
    pub fn ranks(self) -> Ranks
        ensures { result.0.0 ≡ self.0 }
    {
        Ranks(self)
    }

    // How many terms the set holds.
    pub fn count(self) -> u32
        ensures { result ≡ term_count self.0 }
    {
        self.0.count_ones()
    }
}
