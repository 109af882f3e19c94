// The codon of a coding base, read and translated.
ghost use Rattle.std.specs.Prelude.{◌≡◌, List, ℕ, ◌<◌, ◌≤◌, length, get_or};
ghost use Rattle.codon.specs.code.Letters.{LentLetters};
ghost use Rattle.transcript.specs.Orient.{Oriented};
ghost use Rattle.locate.specs.code.Ordered.{in_order};
ghost use Rattle.locate.specs.declared.VariantLocation.{VariantLocation};
ghost use Rattle.common.specs.Stored.{filled};
ghost use Rattle.locate.specs.Index.{selenocysteine_codons, index_scalars};
ghost use Rattle.consequence.specs.Window.{window_of, coding_byte, coding_base};
ghost use Rattle.consequence.specs.Reading.{fetch_codon};
ghost use Rattle.consequence.specs.code.AtPlace.{coding_called, columns_called};
ghost use Rattle.consequence.specs.code.Segments.{Segments};
ghost use Rattle.consequence.specs.declared.CodingPlace.{CodingPlace};

use super::bases::coding_byte;
use super::columns::{CodonColumns, read_codon};
use super::letters::{is_padded_codon, is_start_codon};
use super::reading::{fetch_ref_codon, is_incomplete_terminal_codon};
use super::selenocysteine::holds_selenocysteine;
use super::{CodingBase, Window};
use codon::CodeLetters;
use locate::{IndexScalars, Ordered};

// What the codon of a coding base gives, unless it is not all in the window, with `alt_base` put in at its place in it,
// by the letters of a genetic code.
// Segment `near` may hold the offset. The segments and their sums stand apart: as one struct a call of a list took a twentieth to a fifth
// longer.
// Inlined, as fetch_ref_codon and read_codon, so that what a codon gives is not laid out in memory.
#[inline(always)]
pub fn read_cds_codon(
    letters: CodeLetters,
    scalars: IndexScalars,
    start_complete: bool,
    segments: &Ordered,
    sums: &[u32],
    codons: &[u32; 64],
    window: &Window,
    alt_base: u8,
    near: usize,
    coding: CodingBase,
) -> Option<CodonColumns>
    requires segments { Segments (in_order segments.now) sums.now scalars.cds_start_pad }
    requires segment_count_value { (scalars.segment_count ≡ length segments.now.intervals.starts.now)
        × (scalars.total_cds_length ≡ get_or sums.now (length segments.now.intervals.starts.now) 0)
        × (coding.offset.0 < scalars.total_cds_length) }
    requires selenocysteine_count_bound { (scalars.selenocysteine_count ≤ 64) × (scalars.selenocysteine_count ≤ length codons.now) }
    ensures { let base = coding_base segments.now.strand (window_of window.now) in
        ((table : List ℕ) (t : Oriented)
        → LentLetters table letters.entry
        → scalars ≡ index_scalars t
        → t.start_complete ≡ start_complete
        → t.segments ≡ in_order segments.now
        → codons.now ≡ filled 64 (selenocysteine_codons t)
        → (p : ℕ) (place : VariantLocation) (there : CodingPlace)
        → there.base ≡ coding
        → columns_called t p place there result
        ≡ coding_called table t p (coding_byte segments.now.strand alt_base) place there (fetch_codon t base coding.offset.0)) }
{
    let c = fetch_ref_codon(scalars, segments, sums, window, near, coding.offset.0)?;
    Some(read_codon(
        letters,
        is_start_codon(scalars.cds_start_pad, start_complete, coding.number),
        is_padded_codon(scalars.cds_start_pad, coding.number),
        is_incomplete_terminal_codon(scalars.total_cds_length, coding.offset.0),
        holds_selenocysteine(codons, scalars.selenocysteine_count, coding.number),
        c,
        coding,
        coding_byte(segments.strand, alt_base),
    ))
}
