// The answer to a call.
ghost use Rattle.common.specs.Refusal.{outcome_number};
ghost use Rattle.transcript.specs.Transcript.{transcript_of};
ghost use Rattle.consequence.specs.Window.{window_of};
ghost use Rattle.answers.specs.Calls.{CallAnswered};

use common::refusal::Refusal;
use consequence::{Call, Window, annotate_snv};
use transcript::Transcript;
use words::put_called;

// The answer as 20 numbers.
pub fn answer_call(
    window: &Window,
    call: Call,
    transcript: &Transcript,
    out: &mut [i64; 20],
) -> Result<(), Refusal>
    ensures { let w = window_of window.now in
        CallAnswered (transcript_of transcript.now) w call out.old out.new (outcome_number result) }
{
    let answer = annotate_snv(window, call, transcript)?;
    put_called(out, 0, Ok(answer));
    Ok(())
}
