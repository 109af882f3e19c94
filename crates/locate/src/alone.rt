// The place of one base without an index: lengths are summed up to the exon that holds it.
ghost use Rattle.std.specs.Prelude.{◌≡◌, ◌≤◌, length};
ghost use Rattle.transcript.specs.Limits.{top};
ghost use Rattle.transcript.specs.Transcript.{transcript_of};
ghost use Rattle.transcript.specs.Orient.{oriented};
ghost use Rattle.locate.specs.Place.{is_exonic_splice_region, exonic, locate};
ghost use Rattle.locate.specs.code.Features.{bases_of};
ghost use Rattle.locate.specs.code.Search.{Holds};

use super::exonic::{Counts, exonic_place, first_index, is_exonic_splice_region};
use super::intronic::classify_intronic;
use super::lengths::{bases_before, length_before};
use super::place::{downstream_place, upstream_place};
use super::search::Ordered;
use super::{ExonOrIntron, Feature, VariantLocation};
use footprint::Ranges;
use transcript::admission::Admitted;
use transcript::limits::{end_or_zero, start_or_zero};
use transcript::order::pad_of;
use transcript::oriented::{end_of, start_of};

// The place of the base p of an exon.
pub(crate) fn exon_alone(admitted: Admitted, exon: Feature, p: u64) -> VariantLocation
    requires holds { Holds (oriented (transcript_of admitted.transcript.now)) exon p }
    ensures { let t = transcript_of admitted.entry.transcript.now in
        let mark = is_exonic_splice_region (length (oriented t).exons) exon.index (bases_of exon) p in
        result ≡ exonic (oriented t) p exon.index mark }
{
    let transcript = admitted.transcript;
    let mark = is_exonic_splice_region(transcript.exons.starts.len(), exon, p);
    let i = exon.index;
    let count = transcript.segments.bases.starts.len();
    if count == 0 {
        return VariantLocation::NonCodingExon {
            exon_index: i as u16,
            is_splice_region: mark,
        };
    }
    let strand = transcript.model.strand;
    let cds = transcript.model.cds;
    let s = start_or_zero(cds);
    let e = end_or_zero(cds);
    let a = start_of(strand, s, e);
    let b = end_of(strand, s, e);
    let first = first_index(transcript.segments.exon_indexes);
    let pad = pad_of(transcript.segments.phases) as u32;
    let exons = Ordered::exons(admitted);
    let before = bases_before(exons, i, p);
    let utr5 = bases_before(exons, first as usize, a);
    let coding_end = utr5 + length_before(Ordered::segments(admitted), count);
    let counts = Counts {
        before,
        utr5,
        coding_end,
        pad,
        first,
    };
    exonic_place(counts, a, b, p, i as u16, mark)
}

// The place of p, an oriented coordinate. Apart from `place_of_base`, which places a base of an exon from an index: one function whose
// answer holds a place or an exon was tried and was slower, and what the two share is shorter than a trait for what they differ in.
// That p is low is one comparison: a type for it would be unwrapped at each edge, which is a u64.
pub(crate) fn place_alone(ranges: Ranges, admitted: Admitted, p: u64) -> VariantLocation
    requires low { p ≤ top }
    ensures { let t = transcript_of admitted.entry.transcript.now in
        result ≡ locate ranges (oriented t) p }
{
    let transcript = admitted.transcript;
    let strand = transcript.model.strand;
    let s = transcript.model.tx_start;
    let e = transcript.model.tx_end;
    let first = start_of(strand, s, e);
    let last = end_of(strand, s, e);
    if p < first {
        return upstream_place(ranges, first - p);
    }
    if last <= p {
        return downstream_place(ranges, p - last + 1);
    }
    let found = Ordered::exons(admitted).find(p);
    match found {
        ExonOrIntron::Exon(exon) => exon_alone(admitted, exon, p),
        ExonOrIntron::Intron(intron) => classify_intronic(ranges, transcript, intron, p),
        ExonOrIntron::Outside => VariantLocation::Distal,
    }
}
