// Refusals 8 to 12: the segments against the exons and the CDS.
ghost use Rattle.std.specs.Prelude.{◌≡◌, true, false, ◌<◌, length, get_or};
ghost use Rattle.common.specs.Lists.{any};
ghost use Rattle.common.specs.Refusal.{outcome};
ghost use Rattle.transcript.specs.Orient.{interval, orient};
ghost use Rattle.transcript.specs.Admission.{bad_exon};
ghost use Rattle.transcript.specs.Cuts.{cut_at, cuts, same_cut, same_cuts};
ghost use Rattle.transcript.specs.code.Lent.{exons_in, oriented_in, cuts_in, IsCuttable, cds_fault};
ghost use Rattle.transcript.specs.code.Judged.{IsCounted, IsBounded, frame_fault, segments_fault};

use super::order::bad_bounds;
use super::oriented::{end_within, first_base, last_base, start_within};
use super::segments::{holds_base, judge_indexes};
use super::{CdsBounds, CdsSegments, Strand, Stranded, Transcript};
use common::refusal::Refusal;

// Whether segment k is [lo, hi), oriented, of exon i.
pub(crate) fn is_cut(
    segments: CdsSegments,
    strand: Strand,
    k: usize,
    i: usize,
    lo: u64,
    hi: u64,
) -> bool
    requires even { (length segments.bases.starts.now ≡ length segments.exon_indexes.now)
        × (length segments.bases.starts.now ≡ length segments.bases.ends.now) }
    requires in_bounds { k < length segments.exon_indexes.now }
    requires good_edges { any bad_exon (exons_in segments.bases) ≡ false }
    ensures { let bases = segments.entry.bases in
        let segment = orient strand (get_or bases.starts.now k 0) (get_or bases.ends.now k 0) in
        result ≡ same_cut (cut_at (get_or segments.entry.exon_indexes.now k 0) segment) (cut_at i (interval lo hi)) }
{
    let bases = Stranded {
        intervals: segments.bases,
        strand,
    };
    segments.exon_indexes[k] as usize == i
        && bases.start_within(k) == lo
        && bases.end_within(k) == hi
}

// Whether the segments are the nonempty exon-CDS intersections in strand order, each with its exon's index.
pub(crate) fn are_cuts(exons: Stranded, cds: CdsBounds, segments: CdsSegments) -> bool
    requires { IsCuttable exons.intervals cds segments }
    ensures { let strand = exons.entry.strand in
        let bases = orient strand cds.cds_genomic_start cds.cds_genomic_end in
        result ≡ same_cuts (cuts_in strand segments.entry) (cuts bases 0 (oriented_in strand exons.entry.intervals)) }
{
    let strand = exons.strand;
    let first = start_within(strand, cds.cds_genomic_start, cds.cds_genomic_end);
    let past = end_within(strand, cds.cds_genomic_start, cds.cds_genomic_end);
    // Moves past an exon that holds a part of the CDS alone: segments taken from an iterator by hand are no plainer.
    let mut k = 0;
    for i in 0..exons.intervals.starts.len() {
        let lo = exons.start_within(i).max(first);
        let hi = exons.end_within(i).min(past);
        if lo < hi {
            if k == segments.exon_indexes.len() || !is_cut(segments, strand, k, i, lo, hi) {
                return false;
            }
            k += 1;
        }
    }
    k == segments.exon_indexes.len()
}

// 10, 11, 12: the first and the last coding base, and the segments. `differ`: the segments are known not to be the cuts.
pub(crate) fn judge_cds(
    exons: Stranded,
    cds: CdsBounds,
    segments: CdsSegments,
    differ: bool,
) -> Result<(), Refusal>
    requires cuttable { IsCuttable exons.intervals cds segments }
    requires ordered { cds.cds_genomic_start < cds.cds_genomic_end }
    requires known { let bases = orient exons.strand cds.cds_genomic_start cds.cds_genomic_end in
        differ ≡ true → same_cuts (cuts_in exons.strand segments) (cuts bases 0 (oriented_in exons.strand exons.intervals)) ≡ false }
    ensures { let strand = exons.entry.strand in
        let bases = orient strand cds.cds_genomic_start cds.cds_genomic_end in
        result ≡ outcome (cds_fault true bases (oriented_in strand exons.entry.intervals) (cuts_in strand segments.entry)) tt }
{
    let strand = exons.strand;
    let first = first_base(strand, cds.cds_genomic_start, cds.cds_genomic_end);
    if !holds_base(exons.intervals, first) {
        return Err(Refusal::FirstCodingBase);
    }
    let last = last_base(strand, cds.cds_genomic_start, cds.cds_genomic_end);
    if !holds_base(exons.intervals, last) {
        return Err(Refusal::LastCodingBase);
    }
    if differ || !are_cuts(exons, cds, segments) {
        return Err(Refusal::Segments);
    }
    Ok(())
}

// Whether the ends of a list are those of a run of numbers, as the indexes of cuts are. A look that spares a comparison: no answer
// rests on it.
fn is_run(indexes: &[u16]) -> bool {
    match (indexes.first(), indexes.last()) {
        (Some(first), Some(last)) => usize::from(*last) + 1 == usize::from(*first) + indexes.len(),
        _ => true,
    }
}

// 8 to 12: the segments. Where they span the CDS and are its cuts nothing is at fault, and no fault is looked for, which takes longer.
pub(crate) fn judge_segments(transcript: &Transcript) -> Result<(), Refusal>
    requires known { IsCounted transcript.now × IsBounded transcript.now }
    requires framed { frame_fault transcript.now ≡ 0 }
    ensures { result ≡ outcome (segments_fault transcript.now) tt }
{
    let Some(cds) = transcript.model.cds else {
        return Ok(());
    };
    let segments = transcript.segments;
    let exons = Stranded::exons(transcript);
    let bases = Stranded::segments(transcript);
    let span = is_run(segments.exon_indexes)
        && !bad_bounds(bases, cds.cds_genomic_start, cds.cds_genomic_end);
    if span && are_cuts(exons, cds, segments) {
        return Ok(());
    }
    judge_indexes(transcript.exons.starts.len(), segments.exon_indexes)?;
    judge_cds(exons, cds, segments, span)
}
