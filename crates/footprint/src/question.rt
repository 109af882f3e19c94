// Whether a question about an interval is admitted: 1 to 13, then 15, then 14.
ghost use Rattle.std.specs.Prelude.{◌≡◌};
ghost use Rattle.common.specs.Refusal.{outcome};
ghost use Rattle.transcript.specs.Transcript.{transcript_of};
ghost use Rattle.transcript.specs.Question.{interval_refusal};
ghost use Rattle.transcript.specs.code.Admitted.{lent_by};

use common::refusal::Refusal;
use transcript::Transcript;
use transcript::admission::Admitted;
use transcript::question::bad_interval;

// The transcript of a question about [start, end) that is admitted. The public questions take chromosome, start and end apart, as C lends
// them: a struct that each makes for this one call is no plainer.
pub(crate) fn judge_interval<'a>(
    chromosome: u16,
    start: u64,
    end: u64,
    transcript: &'a Transcript<'a>,
) -> Result<Admitted<'a>, Refusal>
    ensures { let t = transcript.now in
        lent_by result ≡ outcome (interval_refusal (transcript_of t) chromosome start end) t }
{
    let admitted = Admitted::of(transcript)?;
    if bad_interval(start, end) {
        return Err(Refusal::Interval);
    }
    if chromosome != transcript.model.chromosome {
        return Err(Refusal::Chromosome);
    }
    Ok(admitted)
}
