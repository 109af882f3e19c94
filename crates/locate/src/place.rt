// The place of a base in an admitted transcript, from its index.
ghost use Rattle.std.specs.Prelude.{◌≡◌, ◌+◌, ◌-◌, ◌≤◌, ◌<◌, length};
ghost use Rattle.transcript.specs.Limits.{top};
ghost use Rattle.transcript.specs.Transcript.{transcript_of};
ghost use Rattle.transcript.specs.Orient.{oriented};
ghost use Rattle.locate.specs.Index.{index_scalars};
ghost use Rattle.locate.specs.code.Sums.{ExonSums};
ghost use Rattle.locate.specs.Place.{is_exonic_splice_region, exonic, locate};
ghost use Rattle.locate.specs.code.Features.{bases_of};
ghost use Rattle.locate.specs.code.Search.{Holds, upstream_by, downstream_by};

use super::exonic::{Counts, exonic_place, is_exonic_splice_region};
use super::intronic::classify_intronic;
use super::positions::offset_at;
use super::search::Ordered;
use super::{ExonOrIntron, Feature, IndexScalars, VariantLocation};
use footprint::Ranges;
use transcript::admission::Admitted;
use transcript::limits::{end_or_zero, start_or_zero};
use transcript::oriented::{end_of, start_of};

// This and the next differ in the case they answer with, and nothing else: a function of both would take that case as a function.
pub(crate) fn upstream_place(ranges: Ranges, d: u64) -> VariantLocation
    ensures { result ≡ upstream_by ranges d }
{
    let flank = ranges.flank;
    if d <= flank {
        return VariantLocation::Upstream { distance: d };
    }
    VariantLocation::Distal
}

pub(crate) fn downstream_place(ranges: Ranges, d: u64) -> VariantLocation
    ensures { result ≡ downstream_by ranges d }
{
    let flank = ranges.flank;
    if d <= flank {
        return VariantLocation::Downstream { distance: d };
    }
    VariantLocation::Distal
}

// The place of the base p of an exon. The parts of the index apart, as in consequence's annotate_admitted, for the same reason.
pub(crate) fn exon_base(
    admitted: Admitted,
    scalars: IndexScalars,
    cumulative_exons: &[u32],
    exon: Feature,
    p: u64,
) -> VariantLocation
    requires indexed { let t = transcript_of admitted.transcript.now in
        (scalars ≡ index_scalars (oriented t)) × ExonSums (oriented t) cumulative_exons.now }
    requires holds { Holds (oriented (transcript_of admitted.transcript.now)) exon p }
    ensures { let t = transcript_of admitted.entry.transcript.now in
        let mark = is_exonic_splice_region (length (oriented t).exons) exon.index (bases_of exon) p in
        result ≡ exonic (oriented t) p exon.index mark }
{
    let transcript = admitted.transcript;
    let mark = is_exonic_splice_region(transcript.exons.starts.len(), exon, p);
    let i = exon.index as u16;
    let count = transcript.segments.bases.starts.len();
    if count == 0 {
        return VariantLocation::NonCodingExon {
            exon_index: i,
            is_splice_region: mark,
        };
    }
    let utr5 = scalars.utr5_exonic_len;
    let pad = scalars.cds_start_pad;
    let before = offset_at(cumulative_exons, exon.index, exon.start, p);
    let coding_end = utr5 + (scalars.total_cds_length - pad);
    let counts = Counts {
        before,
        utr5,
        coding_end,
        pad,
        first: scalars.cds_start_exon_idx,
    };
    let strand = transcript.model.strand;
    let cds = transcript.model.cds;
    let s = start_or_zero(cds);
    let e = end_or_zero(cds);
    let a = start_of(strand, s, e);
    let b = end_of(strand, s, e);
    exonic_place(counts, a, b, p, i, mark)
}

// The place of p, an oriented coordinate. Inlined, as `find`.
#[inline(always)]
pub fn place_of_base(
    ranges: Ranges,
    admitted: Admitted,
    scalars: IndexScalars,
    cumulative_exons: &[u32],
    p: u64,
) -> VariantLocation
    requires indexed { let t = transcript_of admitted.transcript.now in
        (scalars ≡ index_scalars (oriented t)) × ExonSums (oriented t) cumulative_exons.now }
    requires low { p ≤ top }
    ensures { let t = transcript_of admitted.entry.transcript.now in
        result ≡ locate ranges (oriented t) p }
{
    let transcript = admitted.transcript;
    let strand = transcript.model.strand;
    let s = transcript.model.tx_start;
    let e = transcript.model.tx_end;
    let first = start_of(strand, s, e);
    let last = end_of(strand, s, e);
    if p < first {
        return upstream_place(ranges, first - p);
    }
    if last <= p {
        return downstream_place(ranges, p - last + 1);
    }
    let found = Ordered::exons(admitted).find(p);
    match found {
        ExonOrIntron::Exon(exon) => exon_base(admitted, scalars, cumulative_exons, exon, p),
        ExonOrIntron::Intron(intron) => classify_intronic(ranges, transcript, intron, p),
        ExonOrIntron::Outside => VariantLocation::Distal,
    }
}
