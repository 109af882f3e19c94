// The ranks of a set's terms, one after the other.
ghost use Rattle.std.specs.Iterator.{YieldsFirst, item_count};
ghost use Rattle.terms.specs.Terms.{ranks};

use crate::TermSet;

// The ranks of the terms that this set holds, lowest first.
#[derive(Clone, Copy)]
pub struct Ranks(pub TermSet);

impl Iterator for Ranks {
    type Item = u32;

    ghost next_gives = { YieldsFirst (λ s. ranks s.0.0) };

    ghost remaining = { item_count (λ s. ranks s.0.0) };

    #[tactic(auto, using(crate::proofs::RankLists::first_more))]
    fn next(&mut self) -> Option<u32> {
        let rank = self.0.most_severe()?;
        self.0 = self.0.rest();
        Some(rank)
    }
}
