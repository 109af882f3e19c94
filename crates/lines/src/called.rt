// The line of a call.
ghost use Rattle.std.specs.Prelude.{◌≡◌};
ghost use Rattle.lines.specs.Line.{numbered_line, write_answer, written_to};

use crate::answer::write_answer;
use crate::line::write_refusal;
use common::refusal::Refusal;
use consequence::ConsequenceResult;

// The line of a call's answer, or of a refusal of any number, and its length, newline included, or `LineLength` where it does not fit.
pub fn write_called(
    out: &mut [u8],
    number: u64,
    id: u32,
    called: Result<ConsequenceResult, u8>,
) -> Result<usize, Refusal>
    ensures { let line = numbered_line number id called in
        (result ≡ write_answer out.old line) × (out.new ≡ written_to out.old line) }
{
    match called {
        Ok(x) => write_answer(out, number, u64::from(id), x),
        Err(n) => write_refusal(out, number, u64::from(id), u64::from(n)),
    }
}
