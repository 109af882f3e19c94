// The answer at a coding base as numbers, put from what its codon gives: an answer that is built and taken apart again costs moves.
ghost use Rattle.std.specs.Prelude.{ℕ, ◌+◌, ◌≤◌, ◌≡◌, cond, length, Ok};
ghost use Rattle.std.proofs.lemmas.List.Edits.{sets};
ghost use Rattle.transcript.specs.Orient.{Oriented};
ghost use Rattle.locate.specs.Place.{cdna_position};
ghost use Rattle.consequence.specs.Answer.{exon_result};
ghost use Rattle.consequence.specs.Numbers.{called_words, column_words};
ghost use Rattle.consequence.specs.Region.{cds_exon};
ghost use Rattle.consequence.specs.code.AtPlace.{columns_of};

use crate::columns::{codon_word, letters_word};
use crate::row::{Row, place_words};
use crate::words::put_both;
use consequence::{CodingPlace, CodonColumns};
use locate::CdnaPosition;
use terms::TermSet;

// A number that is shown, else 0.
fn if_shown(shown: bool, n: u32) -> u32
    ensures { result ≡ cond shown n 0 }
{
    if shown { n } else { 0 }
}

// The columns, which stand behind the place.
#[inline(always)]
fn coding_columns(
    exons: u16,
    place: CodingPlace,
    cdna: CdnaPosition,
    c: CodonColumns,
    terms: TermSet,
) -> [i64; 12]
    ensures { (t : Oriented) (p : ℕ)
        → length t.exons ≡ exons
        → cdna_position t p ≡ cdna.0
        → result ≡ column_words (exon_result t p (cds_exon place) place.exon (columns_of place.base c) terms.0) }
{
    let base = place.base;
    let shown = c.shown;
    [
        place.exon as i64 + 1,
        exons as i64,
        0,
        0,
        base.offset.0 as i64 + 1,
        cdna.0 as i64,
        if_shown(shown, base.number) as i64,
        if_shown(shown, codon_word(c.reference)) as i64,
        if_shown(shown, codon_word(c.altered)) as i64,
        if_shown(shown, base.position as u32) as i64,
        letters_word(c.letters) as i64,
        terms.0 as i64,
    ]
}

// The answer as 20 numbers.
pub fn put_coding(
    out: &mut [i64],
    at: usize,
    exons: u16,
    place: CodingPlace,
    cdna: CdnaPosition,
    c: CodonColumns,
    terms: TermSet,
)
    requires { at + 20 ≤ length out.old }
    ensures { (t : Oriented) (p : ℕ)
        → length t.exons ≡ exons
        → cdna_position t p ≡ cdna.0
        → out.new ≡ sets out.old at
        (called_words (Ok (exon_result t p (cds_exon place) place.exon (columns_of place.base c) terms.0))) }
{
    // Kind 4, as in `row_of`.
    let row = Row {
        kind: 4,
        mark: place.mark as u32,
        index: place.exon as u32,
        segment: place.segment as u32,
        position: place.base.position as u32,
        distance: i64::from(place.base.offset.0),
        number: place.base.number,
    };
    let columns = coding_columns(exons, place, cdna, c, terms);
    put_both(out, at, &place_words(row), &columns);
}
