// Refusals 1 and 2: the numbers of things, their coordinates and the chromosome.
ghost use Rattle.std.specs.Prelude.{◌≡◌};
ghost use Rattle.std.specs.List.{list_any};
ghost use Rattle.common.specs.Refuse.{refuse};
ghost use Rattle.common.specs.Refusal.{outcome};
ghost use Rattle.transcript.specs.Transcript.{even_lists, cds_start, cds_end};
ghost use Rattle.transcript.specs.Admission.{bad_numbers, bad_edges, over_limit, bad_scalars};
ghost use Rattle.transcript.specs.code.Lent.{any_lent};
ghost use Rattle.transcript.specs.code.Judged.{bad_lengths, bad_lent};

use super::{CdsBounds, CdsSegments, Intervals, Transcript, TranscriptModel};
use common::refusal::Refusal;

// The largest coordinate of a transcript.
const LIMIT: u64 = 1_000_000_000;

// 1: whether lists of one thing have one length.
pub(crate) fn are_even(exons: Intervals, segments: CdsSegments) -> bool
    ensures { let bases = segments.entry.bases in
        result ≡ even_lists exons.entry.starts.now exons.entry.ends.now
        segments.entry.phases.now segments.entry.exon_indexes.now bases.starts.now bases.ends.now }
{
    let bases = segments.bases;
    let n = bases.starts.len();
    exons.starts.len() == exons.ends.len()
        && n == segments.phases.len()
        && n == segments.exon_indexes.len()
        && n == bases.ends.len()
}

// 1: the lengths of the lists.
pub(crate) fn bad_numbers(count: u16, exons: usize, segments: usize, bases: usize) -> bool
    ensures { result ≡ bad_numbers count exons segments bases }
{
    exons == 0 || 512 < exons || count as usize != exons || exons < segments || 64 < bases
}

// 2: an interval whose start is not below its end or whose end is over the limit.
pub(crate) fn bad_edges(intervals: Intervals) -> bool
    ensures { result ≡ any_lent bad_edges intervals.entry }
{
    intervals
        .starts
        .iter()
        .zip(intervals.ends)
        .any(|(start, end)| end <= start || LIMIT < *end)
}

pub fn start_or_zero(cds: Option<CdsBounds>) -> u64
    ensures { result ≡ cds_start cds }
{
    cds.map_or(0, |bounds| bounds.cds_genomic_start)
}

pub fn end_or_zero(cds: Option<CdsBounds>) -> u64
    ensures { result ≡ cds_end cds }
{
    cds.map_or(0, |bounds| bounds.cds_genomic_end)
}

// 2: the bounds and the chromosome.
pub(crate) fn bad_scalars(model: TranscriptModel) -> bool
    ensures { result ≡ bad_scalars model }
{
    LIMIT < model.tx_start
        || LIMIT < model.tx_end
        || LIMIT < start_or_zero(model.cds)
        || LIMIT < end_or_zero(model.cds)
        || model.chromosome == 0
        || 25 < model.chromosome
}

// 1: the lengths of the lists.
pub(crate) fn judge_counts(transcript: &Transcript) -> Result<(), Refusal>
    ensures { result ≡ outcome (refuse (bad_lengths transcript.now) 1 0) tt }
{
    let exons = transcript.exons;
    let segments = transcript.segments;
    if !are_even(exons, segments) {
        return Err(Refusal::Counts);
    }
    if bad_numbers(
        transcript.model.exon_count,
        exons.starts.len(),
        segments.bases.starts.len(),
        transcript.selenocysteine.len(),
    ) {
        return Err(Refusal::Counts);
    }
    Ok(())
}

// 2: a base over the limit.
fn bad_bases(bases: &[u64]) -> bool
    ensures { result ≡ list_any over_limit bases.now }
{
    bases.iter().any(|base| LIMIT < *base)
}

// 2: edges, bases, bounds and chromosome.
fn bad_coordinates(transcript: &Transcript) -> bool
    ensures { result ≡ bad_lent transcript.now }
{
    bad_edges(transcript.exons)
        || bad_edges(transcript.segments.bases)
        || bad_bases(transcript.selenocysteine)
        || bad_scalars(transcript.model)
}

pub(crate) fn judge_coordinates(transcript: &Transcript) -> Result<(), Refusal>
    ensures { result ≡ outcome (refuse (bad_lent transcript.now) 2 0) tt }
{
    if bad_coordinates(transcript) {
        return Err(Refusal::Coordinates);
    }
    Ok(())
}
