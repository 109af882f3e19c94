// Where an interval lies beside a transcript, in oriented coordinates.
ghost use Rattle.std.specs.Prelude.{◌≡◌, ◌-◌, ◌^◌, ◌<◌};
ghost use Rattle.transcript.specs.Transcript.{transcript_of};
ghost use Rattle.footprint.specs.Ranges.{source_ranges};
ghost use Rattle.footprint.specs.code.Lent.{span_of};
ghost use Rattle.footprint.specs.Flank.{flank_distance, flank_of};
ghost use Rattle.footprint.specs.Question.{flank};

use super::question::judge_interval;
use super::source::source_ranges;
use super::span::{Span, span_of};
use super::{Flank, Ranges};
use common::refusal::Refusal;
use transcript::Transcript;

// The distance of an insertion or of some bases, with this number of bases between.
pub(crate) fn flank_distance(q: Span, bases: u64) -> u64
    requires { bases < 2 ^ 64 - 1 }
    ensures { result ≡ flank_distance (span_of q) bases }
{
    if q.start == q.end { bases } else { bases + 1 }
}

// Where q lies beside x.
pub(crate) fn flank_of(ranges: Ranges, x: Span, q: Span) -> Flank
    ensures { result ≡ flank_of ranges (span_of x) (span_of q) }
{
    let flank = ranges.flank;
    if q.end <= x.start {
        let bases = x.start - q.end;
        if flank <= bases {
            return Flank::Far;
        }
        return Flank::Upstream(flank_distance(q, bases));
    }
    if q.start < x.end {
        return Flank::Overlaps;
    }
    let bases = q.start - x.end;
    if flank <= bases {
        return Flank::Far;
    }
    Flank::Downstream(flank_distance(q, bases))
}

// Where [start, end) lies beside the transcript, from the bounds of both.
pub fn classify_flank(
    chromosome: u16,
    start: u64,
    end: u64,
    transcript: &Transcript,
) -> Result<Flank, Refusal>
    ensures { result ≡ flank source_ranges (transcript_of transcript.now) chromosome start end }
{
    judge_interval(chromosome, start, end, transcript)?;
    let model = transcript.model;
    let x = span_of(model.strand, model.tx_start, model.tx_end);
    let q = span_of(model.strand, start, end);
    Ok(flank_of(source_ranges(), x, q))
}
