// The index of a transcript.
ghost use Rattle.std.specs.Prelude.{◌≡◌, cond, ◌+◌, ◌-◌, ◌≤◌, ltb};
ghost use Rattle.transcript.specs.Limits.{max_exons};
ghost use Rattle.transcript.specs.Transcript.{transcript_of};
ghost use Rattle.transcript.specs.Orient.{oriented};
ghost use Rattle.common.specs.Lists.{any};
ghost use Rattle.footprint.specs.ShortIntron.{is_frameshift_gap};
ghost use Rattle.footprint.specs.code.Lent.{gaps_in};
ghost use Rattle.locate.specs.Index.{index_scalars, locate_index};
ghost use Rattle.locate.specs.code.Sums.{ExonSums, CdsSums};

use super::exonic::first_index;
use super::positions::utr5_length;
use super::prefix_sums::sum_up;
use super::search::Ordered;
use super::selenocysteine::selenocysteine_codons;
use super::{IndexScalars, LocateIndex};
use footprint::has_frameshift_intron;
use transcript::Stranded;
use transcript::admission::Admitted;
use transcript::limits::{end_or_zero, start_or_zero};
use transcript::oriented::start_of;

// The exon of the last coding base, from that of the first: each exon from the first to the last has a segment.
pub(crate) fn last_exon(first: u16, segments: usize) -> u16
    requires { (first + segments ≤ 65536) × (segments ≤ max_exons) }
    ensures { result ≡ cond (ltb 0 segments) (first + segments - 1) 0 }
{
    if segments == 0 {
        return 0;
    }
    first + (segments - 1) as u16
}

// The scalars of the index of an admitted transcript, from its cumulative lengths and whether it has a short intron: apart from the
// index, since a caller with sums of its own asks for them too.
pub fn scalars_of(
    admitted: Admitted,
    cumulative_exons: &[u32],
    cumulative_cds: &[u32],
    short: bool,
) -> IndexScalars
    requires sums { let t = transcript_of admitted.transcript.now in
        ExonSums (oriented t) cumulative_exons.now × CdsSums (oriented t) cumulative_cds.now }
    requires short { short ≡ any is_frameshift_gap (gaps_in admitted.transcript.now.model.strand admitted.transcript.now.exons) }
    ensures { let t = transcript_of admitted.entry.transcript.now in
        result ≡ index_scalars (oriented t) }
{
    let transcript = admitted.transcript;
    let strand = transcript.model.strand;
    let cds = transcript.model.cds;
    let count = transcript.segments.bases.starts.len();
    let first = first_index(transcript.segments.exon_indexes);
    let s = start_or_zero(cds);
    let e = end_or_zero(cds);
    let from = start_of(strand, s, e);
    IndexScalars {
        cds_start_pad: cumulative_cds[0],
        exon_count: transcript.exons.starts.len(),
        segment_count: count,
        total_cds_length: cumulative_cds[count],
        utr5_exonic_len: utr5_length(
            0 < count,
            Ordered::exons(admitted),
            cumulative_exons,
            first as usize,
            from,
        ),
        cds_start_exon_idx: first,
        cds_end_exon_idx: last_exon(first, count),
        has_frameshift_intron: short,
        selenocysteine_count: transcript.selenocysteine.len(),
    }
}

// The index of an admitted transcript, built in its place. Inlined, so that a caller's index is not copied.
#[inline(always)]
pub fn index_of(admitted: Admitted) -> LocateIndex
    ensures { let t = transcript_of admitted.entry.transcript.now in
        result ≡ locate_index (oriented t) }
{
    let transcript = admitted.transcript;
    let mut index = LocateIndex {
        scalars: IndexScalars::default(),
        cumulative_exons: [0; 513],
        cumulative_cds: [0; 513],
        selenocysteine_codons: [0; 64],
    };
    sum_up(
        &mut index.cumulative_exons,
        &mut index.cumulative_cds,
        admitted,
    );
    index.scalars = scalars_of(
        admitted,
        &index.cumulative_exons,
        &index.cumulative_cds,
        has_frameshift_intron(Stranded::exons(transcript)),
    );
    let codons = selenocysteine_codons(
        &Ordered::segments(admitted),
        &index.cumulative_cds,
        transcript.selenocysteine,
    );
    let numbers = codons.numbers;
    index.selenocysteine_codons = numbers;
    index
}
