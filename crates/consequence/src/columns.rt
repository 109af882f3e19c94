// What the codon of a coding base gives: codons, letters and terms.
ghost use Rattle.std.specs.Prelude.{◌≡◌, List, ℕ};
ghost use Rattle.transcript.specs.Orient.{Oriented};
ghost use Rattle.codon.specs.Table.{build_alt_codon};
ghost use Rattle.codon.specs.code.Letters.{LentLetters};
ghost use Rattle.consequence.specs.Reading.{is_incomplete_terminal_codon, holds_selenocysteine};
ghost use Rattle.consequence.specs.Coding.{is_start_codon, is_padded_codon};
ghost use Rattle.consequence.specs.code.AtPlace.{columns_of};
ghost use Rattle.consequence.specs.Answer.{incomplete_codon, whole_codon, read_codon};

use super::CodingBase;
use super::letters::{shown_letters, shows_codon};
use codon::{AminoAcids, CodeLetters, Codon, build_alt_codon, translate_codons};
use terms::{Consequence, TermSet, coding_term};

// Codon number and codons are shown or not. No options, as an answer has: each column that `shown` governs would be matched apart.
#[derive(Clone, Copy)]
pub struct CodonColumns {
    pub shown: bool,
    pub reference: Codon,
    pub altered: Codon,
    pub letters: Option<AminoAcids>,
    pub terms: TermSet,
}

// An unfinished last codon: its own bases as codons, letter X.
fn incomplete_codon(c: Codon, altered: Codon) -> CodonColumns
    ensures { (b : CodingBase) → columns_of b result ≡ incomplete_codon b.offset.0 b.number c altered b.position }
{
    let first = TermSet::of(Consequence::IncompleteTerminalCodonVariant);
    let terms = first.with(Consequence::CodingSequenceVariant);
    CodonColumns {
        shown: true,
        reference: c,
        altered,
        letters: Some(AminoAcids::One(b'X')),
        terms,
    }
}

// A whole codon with its two letters.
fn whole_codon(
    start: bool,
    padded: bool,
    c: Codon,
    altered: Codon,
    reference_letter: u8,
    altered_letter: u8,
) -> CodonColumns
    ensures { (t : Oriented) (b : CodingBase)
        → start ≡ is_start_codon t b.number
        → padded ≡ is_padded_codon t b.number
        → columns_of b result ≡ whole_codon t b.offset.0 b.number c altered b.position reference_letter altered_letter }
{
    CodonColumns {
        shown: shows_codon(padded, reference_letter),
        reference: c,
        altered,
        letters: shown_letters(padded, reference_letter, altered_letter),
        terms: TermSet::of(coding_term(start, reference_letter, altered_letter)),
    }
}

// The codon c of a coding base, which becomes the base put in, by the letters of a genetic code.
// Inlined, as read_cds_codon.
#[inline(always)]
pub(crate) fn read_codon(
    letters: CodeLetters,
    start: bool,
    padded: bool,
    incomplete: bool,
    selenocysteine: bool,
    c: Codon,
    coding: CodingBase,
    b: u8,
) -> CodonColumns
    ensures { (table : List ℕ) (t : Oriented)
        → LentLetters table letters.entry
        → start ≡ is_start_codon t coding.number
        → padded ≡ is_padded_codon t coding.number
        → incomplete ≡ is_incomplete_terminal_codon t coding.offset.0
        → selenocysteine ≡ holds_selenocysteine t coding.number
        → columns_of coding result
        ≡ read_codon table t coding.offset.0 coding.number c (build_alt_codon c coding.position b) coding.position }
{
    let k = coding.position;
    let altered = build_alt_codon(c, k, b);
    if incomplete {
        return incomplete_codon(c, altered);
    }
    let both = translate_codons(letters, selenocysteine, c, k, b);
    whole_codon(start, padded, c, altered, both.reference, both.altered)
}
