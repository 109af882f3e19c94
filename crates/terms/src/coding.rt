// The term of a coding base, and what a splice spill does to a set.
ghost use Rattle.std.specs.Prelude.{◌≡◌};
ghost use Rattle.terms.specs.Coding.{starts_m, retained_term, coding_term};
ghost use Rattle.terms.specs.Terms.{spill_terms};

use crate::{Consequence, TermSet};

// The start codon reads M.
fn starts_m(start: bool, reference: u8) -> bool
    ensures { result ≡ starts_m start reference }
{
    start && reference == b'M'
}

// The term where the letters are equal; `start` says that the start codon reads M.
fn retained_term(start: bool, reference: u8) -> Consequence
    ensures { result ≡ retained_term start reference }
{
    if start {
        Consequence::StartRetainedVariant
    } else if reference == b'*' {
        Consequence::StopRetainedVariant
    } else {
        Consequence::SynonymousVariant
    }
}

// The term of a coding base in a whole codon, from its two letters; `start` says that the codon is the start codon.
#[tactic(auto, unfolding(crate::specs::Coding::coding_term))]
pub fn coding_term(start: bool, reference: u8, altered: u8) -> Consequence
    ensures { result ≡ coding_term start reference altered }
{
    let m = starts_m(start, reference);
    if reference == b'X' || altered == b'X' {
        Consequence::CodingSequenceVariant
    } else if reference == altered {
        retained_term(m, reference)
    } else if altered == b'*' {
        Consequence::StopGained
    } else if reference == b'*' {
        Consequence::StopLost
    } else if m {
        Consequence::StartLost
    } else {
        Consequence::MissenseVariant
    }
}

// A spill adds the splice term of each end that is hit, and any hit removes splice_region_variant.
#[tactic(auto, unfolding(crate::specs::Terms::spill_terms))]
pub fn spill_terms(donor: bool, acceptor: bool, terms: TermSet) -> TermSet
    ensures { result.0 ≡ spill_terms donor acceptor terms.0 }
{
    if donor || acceptor {
        terms
            .with_if(donor, Consequence::SpliceDonorVariant)
            .with_if(acceptor, Consequence::SpliceAcceptorVariant)
            .without(Consequence::SpliceRegionVariant)
    } else {
        terms
    }
}
