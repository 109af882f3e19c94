// The flank, the short intron and the spill of an interval.
ghost use Rattle.common.specs.Refusal.{outcome_number};
ghost use Rattle.transcript.specs.Transcript.{transcript_of};
ghost use Rattle.answers.specs.Interval.{IntervalAnswered};

use common::refusal::Refusal;
use footprint::{classify_flank, exonic_splice_spill, frameshift_intron_endpoint};
use transcript::Transcript;
use words::put_interval;

// The answers about [start, end) as 7 numbers.
pub fn answer_interval(
    chromosome: u16,
    start: u64,
    end: u64,
    transcript: &Transcript,
    out: &mut [i64; 7],
) -> Result<(), Refusal>
    ensures { IntervalAnswered (transcript_of transcript.now) chromosome start end out.old out.new (outcome_number result) }
{
    let flank = classify_flank(chromosome, start, end, transcript)?;
    let intron = frameshift_intron_endpoint(chromosome, start, end, transcript)?;
    let spill = exonic_splice_spill(chromosome, start, end, transcript)?;
    put_interval(out, flank, Ok(intron), spill);
    Ok(())
}
