// The splice windows of short introns that reach an interval beside the intron, in oriented coordinates.
ghost use Rattle.std.specs.Prelude.{◌≡◌, ◌&&◌, ◌≤◌};
ghost use Rattle.transcript.specs.Limits.{top};
ghost use Rattle.transcript.specs.Transcript.{transcript_of};
ghost use Rattle.transcript.specs.Orient.{oriented};
ghost use Rattle.footprint.specs.code.Lent.{span_of};
ghost use Rattle.footprint.specs.ShortIntron.{is_frameshift_gap, hits, donor_window, acceptor_window, exonic_splice_spill};
ghost use Rattle.footprint.specs.Question.{spill};

use super::SpliceSpill;
use super::gaps::{gap_after, is_frameshift_gap};
use super::question::judge_interval;
use super::span::{Span, overlaps, span_of};
use common::refusal::Refusal;
use transcript::admission::Admitted;
use transcript::{Stranded, Transcript};

// The first two bases of the gap; at gap 1 the second lies in the next exon.
pub(crate) fn donor_window(gap: Span) -> Span
    requires { gap.start ≤ top }
    ensures { span_of result ≡ donor_window (span_of gap) }
{
    Span {
        start: gap.start,
        end: gap.start + 2,
    }
}

// The last two bases of the gap; at gap 1 the first lies in the exon before.
pub(crate) fn acceptor_window(gap: Span) -> Span
    ensures { span_of result ≡ acceptor_window (span_of gap) }
{
    Span {
        start: gap.end.saturating_sub(2),
        end: gap.end,
    }
}

// Whether q does not touch the gap and overlaps the window.
pub(crate) fn hits_window(q: Span, gap: Span, window: Span) -> bool
    ensures { result ≡ hits (span_of q) (span_of gap) (span_of window) }
{
    !overlaps(q, gap) && overlaps(q, window)
}

// Whether the gap is short and q hits this window of it.
pub(crate) fn spills_into(window: Span, q: Span, gap: Span) -> bool
    ensures { result ≡ (is_frameshift_gap (span_of gap) && hits (span_of q) (span_of gap) (span_of window)) }
{
    is_frameshift_gap(gap) && hits_window(q, gap, window)
}

// The windows that q hits: two facts, so two flags.
pub(crate) fn spill_of(admitted: Admitted, q: Span) -> SpliceSpill
    ensures { let t = transcript_of admitted.entry.transcript.now in
        result ≡ exonic_splice_spill (oriented t) (span_of q) }
{
    let exons = Stranded::exons(admitted.transcript);
    let mut donor = false;
    let mut acceptor = false;
    for i in 0..exons.intervals.starts.len().saturating_sub(1) {
        let gap = gap_after(exons, i);
        donor |= spills_into(donor_window(gap), q, gap);
        acceptor |= spills_into(acceptor_window(gap), q, gap);
    }
    SpliceSpill { donor, acceptor }
}

// The splice windows of short introns that [start, end), beside these introns, hits. Like `frameshift_intron_endpoint` in shape alone.
pub fn exonic_splice_spill(
    chromosome: u16,
    start: u64,
    end: u64,
    transcript: &Transcript,
) -> Result<SpliceSpill, Refusal>
    ensures { result ≡ spill (transcript_of transcript.now) chromosome start end }
{
    let admitted = judge_interval(chromosome, start, end, transcript)?;
    let q = span_of(transcript.model.strand, start, end);
    Ok(spill_of(admitted, q))
}
