// The answer for a base of an exon.
ghost use Rattle.std.specs.Prelude.{◌≡◌, cond, ℕ, ◌+◌, ◌≤◌, length};
ghost use Rattle.codon.specs.Display.{change_at};
ghost use Rattle.transcript.specs.Limits.{top};
ghost use Rattle.transcript.specs.Orient.{Oriented};
ghost use Rattle.locate.specs.Place.{cdna_position};
ghost use Rattle.consequence.specs.Answer.{nth_of, no_codon, exon_result};
ghost use Rattle.consequence.specs.code.AtPlace.{columns_of};

use super::columns::CodonColumns;
use super::{CodingBase, ConsequenceResult, Numbered};
use codon::{Codon, Codons};
use locate::{CdnaPosition, VariantLocation};
use terms::TermSet;

// In an exon, where the base is not coding.
pub(crate) fn exon_result(
    place: VariantLocation,
    exon: Numbered,
    cdna: CdnaPosition,
    terms: TermSet,
) -> ConsequenceResult
    ensures { (t : Oriented) (p i : ℕ)
        → exon ≡ nth_of (i + 1) (length t.exons)
        → cdna_position t p ≡ cdna.0
        → result ≡ exon_result t p place i no_codon terms.0 }
{
    ConsequenceResult {
        location: place,
        exon: Some(exon),
        intron: None,
        cds_position: None,
        cdna_position: Some(cdna),
        protein_start: None,
        codons: None,
        amino_acids: None,
        consequences: terms,
    }
}

// In an exon at a coding base, with what its codon gives.
pub(crate) fn coding_result(
    place: VariantLocation,
    exon: Numbered,
    base: CodingBase,
    cdna: CdnaPosition,
    c: CodonColumns,
    terms: TermSet,
) -> ConsequenceResult
    requires { base.offset.0 ≤ 2 + top }
    ensures { (t : Oriented) (p i : ℕ)
        → exon ≡ nth_of (i + 1) (length t.exons)
        → cdna_position t p ≡ cdna.0
        → result ≡ exon_result t p place i (columns_of base c) terms.0 }
{
    ConsequenceResult {
        location: place,
        exon: Some(exon),
        intron: None,
        cds_position: Some(base.offset.0 + 1),
        cdna_position: Some(cdna),
        protein_start: c.shown.then_some(base.number),
        codons: c.shown.then_some(Codons {
            reference: c.reference,
            altered: c.altered,
            place: base.position,
        }),
        amino_acids: c.letters,
        consequences: terms,
    }
}
