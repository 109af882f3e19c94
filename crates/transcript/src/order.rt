// Refusals 3 to 7: the order of the exons, the outer bounds, the CDS bounds, the phases and the pad.
ghost use Rattle.std.specs.Prelude.{◌≡◌, false, not, ◌&&◌, ◌≤◌, ◌<◌, length, eqb};
ghost use Rattle.common.specs.Lists.{any};
ghost use Rattle.common.specs.Refusal.{outcome};
ghost use Rattle.transcript.specs.Limits.{coordinate_limit};
ghost use Rattle.transcript.specs.Orient.{orient};
ghost use Rattle.transcript.specs.Admission.{bad_exon, ascending, not_outer, bad_cds_bounds};
ghost use Rattle.transcript.specs.code.Lent.{exons_in, oriented_in, phases_over, pad_of_phases};
ghost use Rattle.transcript.specs.code.Judged.{IsCounted, IsBounded, order_fault, frame_fault};

use super::oriented::{end_within, start_within};
use super::{CdsBounds, Stranded, Transcript};
use common::refusal::Refusal;

// Whether each exon starts at or after the end of the one before it, in strand order.
// What lists have so far is found step by step while a transcript is judged: no type holds before Admitted.
pub(crate) fn in_order(exons: Stranded) -> bool
    requires even { length exons.intervals.starts.now ≡ length exons.intervals.ends.now }
    requires good_edges { any bad_exon (exons_in exons.intervals) ≡ false }
    ensures { result ≡ ascending 0 (oriented_in exons.entry.strand exons.entry.intervals) }
{
    let mut edge: u64 = 0;
    for i in 0..exons.intervals.starts.len() {
        if exons.start_within(i) < edge {
            return false;
        }
        edge = exons.end_within(i);
    }
    true
}

// 4: the transcript's bounds are not the outer exon edges.
pub(crate) fn bad_bounds(exons: Stranded, tx_start: u64, tx_end: u64) -> bool
    requires even { length exons.intervals.starts.now ≡ length exons.intervals.ends.now }
    requires some { 0 < length exons.intervals.starts.now }
    requires good_edges { any bad_exon (exons_in exons.intervals) ≡ false }
    requires within { (tx_start ≤ coordinate_limit) × (tx_end ≤ coordinate_limit) }
    ensures { let strand = exons.entry.strand in
        result ≡ not_outer (orient strand tx_start tx_end) (oriented_in strand exons.entry.intervals) }
{
    let last = exons.intervals.starts.len() - 1;
    start_within(exons.strand, tx_start, tx_end) != exons.start_within(0)
        || end_within(exons.strand, tx_start, tx_end) != exons.end_within(last)
}

// 5: bounds without segments or the reverse, or start not below end.
pub(crate) fn bad_cds(cds: Option<CdsBounds>, segments: bool) -> bool
    ensures { result ≡ bad_cds_bounds cds segments }
{
    match cds {
        None => segments,
        Some(bounds) => !segments || bounds.cds_genomic_end <= bounds.cds_genomic_start,
    }
}

// The pad: (3 - first phase) mod 3, or 0 without segments.
pub fn pad_of(phases: &[u8]) -> u8
    ensures { result ≡ pad_of_phases phases.now }
{
    match phases.first() {
        Some(phase) if *phase <= 2 => (3 - phase) % 3,
        _ => 0,
    }
}

// 6: a phase over 2. All are looked at, so that the compiler takes many in one step.
fn bad_phases(phases: &[u8]) -> bool
    ensures { result ≡ phases_over phases.now }
{
    phases.iter().fold(false, |bad, phase| bad | (2 < *phase))
}

// 7: a pad that is not 0 where the start is complete.
fn bad_pad(phases: &[u8], complete: bool) -> bool
    ensures { result ≡ (not (eqb (pad_of_phases phases.now) 0) && complete) }
{
    pad_of(phases) != 0 && complete
}

// 3, 4: the exons' order and the outer bounds.
pub(crate) fn judge_exons(transcript: &Transcript) -> Result<(), Refusal>
    requires { IsCounted transcript.now × IsBounded transcript.now }
    ensures { result ≡ outcome (order_fault transcript.now) tt }
{
    let model = transcript.model;
    let exons = Stranded::exons(transcript);
    if !in_order(exons) {
        return Err(Refusal::ExonOrder);
    }
    if bad_bounds(exons, model.tx_start, model.tx_end) {
        return Err(Refusal::OuterBounds);
    }
    Ok(())
}

// 5, 6, 7: the CDS bounds, a phase over 2, a pad that is not 0 where the start is complete.
pub(crate) fn judge_frame(transcript: &Transcript) -> Result<(), Refusal>
    ensures { result ≡ outcome (frame_fault transcript.now) tt }
{
    let phases = transcript.segments.phases;
    if bad_cds(
        transcript.model.cds,
        !transcript.segments.bases.starts.is_empty(),
    ) {
        return Err(Refusal::CdsBounds);
    }
    if bad_phases(phases) {
        return Err(Refusal::Phase);
    }
    if bad_pad(phases, transcript.model.cds_start_complete) {
        return Err(Refusal::Pad);
    }
    Ok(())
}
