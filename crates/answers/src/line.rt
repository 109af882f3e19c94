// The printed line of a call on a transcript.
ghost use Rattle.std.specs.Prelude.{◌≡◌};
ghost use Rattle.transcript.specs.Transcript.{transcript_of};
ghost use Rattle.consequence.specs.Window.{window_of};
ghost use Rattle.answers.specs.Lines.{line_outcome, LineAnswered};

use common::refusal::Refusal;
use consequence::{Call, Window, annotate_snv, by_number};
use lines::write_called;
use transcript::Transcript;
use words::VareffectOutcome;

// C takes a number and a value.
pub fn outcome_of(written: Result<usize, Refusal>) -> VareffectOutcome
    ensures { result ≡ line_outcome written }
{
    match written {
        Ok(length) => VareffectOutcome {
            number: 0,
            value: length as u64,
        },
        Err(refusal) => VareffectOutcome {
            number: refusal as u64,
            value: 0,
        },
    }
}

// The line, newline included, at the buffer's start, and its length; 28 where it does not fit.
pub fn answer_line(
    number: u64,
    window: &Window,
    call: Call,
    transcript: &Transcript,
    out: &mut [u8],
) -> VareffectOutcome
    ensures { let t = transcript_of transcript.now in
        let w = window_of window.now in
        LineAnswered t w call number out.old out.new result }
{
    let called = annotate_snv(window, call, transcript);
    let written = write_called(out, number, transcript.model.id, by_number(called));
    outcome_of(written)
}
