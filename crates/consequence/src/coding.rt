// The answer at a coding base.
ghost use Rattle.std.specs.Prelude.{◌≡◌, List, ℕ, ◌-◌, ◌+◌, ◌<◌, ◌≤◌, length, get_or};
ghost use Rattle.codon.specs.code.Letters.{LentLetters};
ghost use Rattle.transcript.specs.Limits.{top};
ghost use Rattle.transcript.specs.Orient.{Oriented};
ghost use Rattle.locate.specs.code.Ordered.{in_order};
ghost use Rattle.locate.specs.Place.{cdna_position};
ghost use Rattle.common.specs.Stored.{filled};
ghost use Rattle.locate.specs.Index.{selenocysteine_codons, index_scalars};
ghost use Rattle.consequence.specs.Window.{window_of, coding_byte, coding_base};
ghost use Rattle.consequence.specs.Reading.{fetch_codon};
ghost use Rattle.consequence.specs.Answer.{nth_of};
ghost use Rattle.consequence.specs.code.AtPlace.{coding_called};
ghost use Rattle.consequence.specs.code.Segments.{Segments};

use super::cds_codon::read_cds_codon;
use super::exonic::coding_result;
use super::region::with_mark;
use super::{Called, CodingPlace, Numbered, Window};
use codon::CodeLetters;
use common::refusal::Refusal;
use locate::{IndexScalars, Ordered, VariantLocation, cdna_position};

// `alt_base` is put in at a coding base. Refusal 21 where its codon is not all in the window. Segments and sums apart, as in
// read_cds_codon.
pub(crate) fn annotate_cds_snv(
    letters: CodeLetters,
    place: VariantLocation,
    exon: Numbered,
    scalars: IndexScalars,
    start_complete: bool,
    segments: &Ordered,
    sums: &[u32],
    codons: &[u32; 64],
    window: &Window,
    alt_base: u8,
    coding: CodingPlace,
) -> Called
    requires segments { Segments (in_order segments.now) sums.now scalars.cds_start_pad }
    requires segment_count_value { (scalars.segment_count ≡ length segments.now.intervals.starts.now)
        × (scalars.total_cds_length ≡ get_or sums.now (length segments.now.intervals.starts.now) 0)
        × (coding.base.offset.0 < scalars.total_cds_length) }
    requires selenocysteine_count_bound { (scalars.selenocysteine_count ≤ 64) × (scalars.selenocysteine_count ≤ length codons.now) }
    requires offset_bound { (coding.base.offset.0 ≤ 2 + top)
        × (scalars.cds_start_pad ≤ coding.base.offset.0)
        × (scalars.utr5_exonic_len + (coding.base.offset.0 - scalars.cds_start_pad) ≤ top) }
    ensures { let base = coding_base segments.now.strand (window_of window.now) in
        ((table : List ℕ) (t : Oriented) (p : ℕ)
        → LentLetters table letters.entry
        → exon ≡ nth_of (coding.exon + 1) (length t.exons)
        → scalars ≡ index_scalars t
        → t.start_complete ≡ start_complete
        → t.segments ≡ in_order segments.now
        → codons.now ≡ filled 64 (selenocysteine_codons t)
        → cdna_position t p ≡ scalars.utr5_exonic_len + (coding.base.offset.0 - scalars.cds_start_pad) + 1
        → result ≡ coding_called table t p (coding_byte segments.now.strand alt_base) place coding (fetch_codon t base coding.base.offset.0)) }
{
    let read = read_cds_codon(
        letters,
        scalars,
        start_complete,
        segments,
        sums,
        codons,
        window,
        alt_base,
        coding.segment as usize,
        coding.base,
    );
    let Some(columns) = read else {
        return Err(Refusal::CodonOutsideWindow);
    };
    let cdna = cdna_position(
        scalars.utr5_exonic_len,
        scalars.cds_start_pad,
        coding.base.offset,
    );
    let terms = with_mark(columns.terms, coding.mark);
    Ok(coding_result(place, exon, coding.base, cdna, columns, terms))
}
