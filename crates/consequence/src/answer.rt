// The answer for a base outside the exons, and the splice spill.
ghost use Rattle.std.specs.Prelude.{◌≡◌, ℕ, ◌+◌, ◌-◌, ◌<◌, length};
ghost use Rattle.transcript.specs.Orient.{Oriented};
ghost use Rattle.consequence.specs.Answer.{nth_of, flank_result, intron_result};
ghost use Rattle.consequence.specs.Call.{add_splice_spill};

use super::{ConsequenceResult, Numbered};
use footprint::SpliceSpill;
use locate::VariantLocation;
use terms::{TermSet, spill_terms};

// Outside the transcript.
pub(crate) fn flank_result(place: VariantLocation, terms: TermSet) -> ConsequenceResult
    ensures { result ≡ flank_result place terms.0 }
{
    ConsequenceResult {
        location: place,
        exon: None,
        intron: None,
        cds_position: None,
        cdna_position: None,
        protein_start: None,
        codons: None,
        amino_acids: None,
        consequences: terms,
    }
}

// The exon or intron of index i, of so many.
pub(crate) fn nth_of(i: u16, total: u16) -> Numbered
    requires { i < 65535 }
    ensures { result ≡ nth_of (i + 1) total }
{
    Numbered {
        number: i + 1,
        total,
    }
}

// In an intron.
pub(crate) fn intron_result(
    place: VariantLocation,
    intron: Numbered,
    terms: TermSet,
) -> ConsequenceResult
    ensures { (t : Oriented) (i : ℕ)
        → intron ≡ nth_of (i + 1) (length t.exons - 1)
        → result ≡ intron_result t place i terms.0 }
{
    ConsequenceResult {
        intron: Some(intron),
        ..flank_result(place, terms)
    }
}

// A spill adds its terms and takes splice_region_variant away.
pub(crate) fn add_splice_spill(s: SpliceSpill, a: ConsequenceResult) -> ConsequenceResult
    ensures { result ≡ add_splice_spill s a }
{
    ConsequenceResult {
        consequences: spill_terms(s.donor, s.acceptor, a.consequences),
        ..a
    }
}
