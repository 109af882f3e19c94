// The place of a base.
ghost use Rattle.common.specs.Refusal.{outcome_number};
ghost use Rattle.transcript.specs.Transcript.{transcript_of};
ghost use Rattle.answers.specs.Left.{PlaceAnswered};

use common::refusal::Refusal;
use locate::locate_variant;
use transcript::Transcript;
use words::put_located;

// The place of [start, end) as 8 numbers.
pub fn answer_place(
    chromosome: u16,
    start: u64,
    end: u64,
    transcript: &Transcript,
    out: &mut [i64; 8],
) -> Result<(), Refusal>
    ensures { PlaceAnswered (transcript_of transcript.now) chromosome start end out.old out.new (outcome_number result) }
{
    let place = locate_variant(chromosome, start, end, transcript)?;
    put_located(out, 0, Ok(place));
    Ok(())
}
