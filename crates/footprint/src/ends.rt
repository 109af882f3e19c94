// The short intron that holds an end of an interval, in oriented coordinates.
ghost use Rattle.std.specs.Prelude.{◌≡◌};
ghost use Rattle.transcript.specs.Transcript.{transcript_of};
ghost use Rattle.transcript.specs.Orient.{oriented};
ghost use Rattle.footprint.specs.code.Lent.{span_of};
ghost use Rattle.footprint.specs.ShortIntron.{holds_end, ends_in, frameshift_intron_endpoint};
ghost use Rattle.footprint.specs.Question.{short_intron};

use super::gaps::{gap_after, is_frameshift_gap};
use super::question::judge_interval;
use super::span::{Span, span_of};
use common::refusal::Refusal;
use transcript::admission::Admitted;
use transcript::segments::lies_in;
use transcript::{Stranded, Transcript};

// Whether the gap holds an end base of q; of an insertion, the bases on both its sides.
pub(crate) fn holds_end(q: Span, gap: Span) -> bool
    ensures { result ≡ holds_end (span_of q) (span_of gap) }
{
    if q.start == q.end {
        return gap.start < q.start && q.start < gap.end;
    }
    lies_in(q.start, gap.start, gap.end) || lies_in(q.end.saturating_sub(1), gap.start, gap.end)
}

// Whether the gap is short and holds an end of q.
pub(crate) fn ends_in(q: Span, gap: Span) -> bool
    ensures { result ≡ ends_in (span_of q) (span_of gap) }
{
    is_frameshift_gap(gap) && holds_end(q, gap)
}

// The index of the first short gap that holds an end of q.
pub(crate) fn endpoint_of(admitted: Admitted, q: Span) -> Option<u16>
    ensures { let t = transcript_of admitted.entry.transcript.now in
        result ≡ frameshift_intron_endpoint (oriented t) (span_of q) }
{
    let exons = Stranded::exons(admitted.transcript);
    for i in 0..exons.intervals.starts.len().saturating_sub(1) {
        if ends_in(q, gap_after(exons, i)) {
            return Some(i as u16);
        }
    }
    None
}

// The index of the short intron that holds an end of [start, end).
pub fn frameshift_intron_endpoint(
    chromosome: u16,
    start: u64,
    end: u64,
    transcript: &Transcript,
) -> Result<Option<u16>, Refusal>
    ensures { result ≡ short_intron (transcript_of transcript.now) chromosome start end }
{
    let admitted = judge_interval(chromosome, start, end, transcript)?;
    let q = span_of(transcript.model.strand, start, end);
    Ok(endpoint_of(admitted, q))
}
