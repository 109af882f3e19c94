// The answer at a place, before the splice spill.
ghost use Rattle.std.specs.Prelude.{◌≡◌};
ghost use Rattle.transcript.specs.Transcript.{transcript_of};
ghost use Rattle.transcript.specs.Orient.{oriented};
ghost use Rattle.locate.specs.Place.{locate};
ghost use Rattle.consequence.specs.Window.{window_of, coding_byte};
ghost use Rattle.consequence.specs.Call.{call_table, call_codon};
ghost use Rattle.consequence.specs.code.AtPlace.{place_called};
ghost use Rattle.consequence.specs.code.Prepared.{Prepared};

use super::answer::{flank_result, intron_result, nth_of};
use super::cdna::compute_cdna_position_exonic;
use super::coding::annotate_cds_snv;
use super::exonic::exon_result;
use super::region::{Region, region_of, with_mark};
use super::{Called, CodedTranscript, Window};
use common::refusal::Refusal;
use footprint::Ranges;
use locate::{IndexScalars, Ordered, VariantLocation};
use terms::TermSet;
use transcript::admission::Admitted;

// `place` is that of p, an oriented base, and `alt_base` is put in there. Refusals 19 and 21.
pub(crate) fn annotate_place(
    ranges: Ranges,
    coded: CodedTranscript,
    window: &Window,
    alt_base: u8,
    scalars: IndexScalars,
    cumulative_exons: &[u32],
    cumulative_cds: &[u32],
    selenocysteine_codons: &[u32; 64],
    place: VariantLocation,
    p: u64,
) -> Called
    requires prepared { Prepared (transcript_of coded.transcript.now) scalars cumulative_exons.now cumulative_cds.now selenocysteine_codons.now }
    requires located { place ≡ locate ranges (oriented (transcript_of coded.transcript.now)) p }
    ensures { let t = transcript_of coded.entry.transcript.now in
        let w = window_of window.now in
        result ≡ place_called (call_table t) (oriented t) p (coding_byte t.model.strand alt_base) (call_codon t w) place }
{
    let transcript = coded.transcript;
    let exons = transcript.model.exon_count;
    let region = region_of(place, 0 < transcript.segments.bases.starts.len());
    match region {
        Region::Distal => Err(Refusal::Distal),
        Region::Flank { term } => Ok(flank_result(place, TermSet::of(term))),
        Region::Intron { index, term, mark } => {
            let terms = with_mark(TermSet::of(term), mark);
            Ok(intron_result(place, nth_of(index, exons - 1), terms))
        }
        Region::Exon { index, term, mark } => {
            let cdna = compute_cdna_position_exonic(
                Ordered::exons(Admitted { transcript }),
                cumulative_exons,
                index as usize,
                p,
            );
            let terms = with_mark(TermSet::of(term), mark);
            Ok(exon_result(place, nth_of(index, exons), cdna, terms))
        }
        Region::Coding(base) => annotate_cds_snv(
            coded.letters,
            place,
            nth_of(base.exon, exons),
            scalars,
            transcript.model.cds_start_complete,
            &Ordered::segments(Admitted { transcript }),
            cumulative_cds,
            selenocysteine_codons,
            window,
            alt_base,
            base,
        ),
    }
}
