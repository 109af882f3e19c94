// The printed line of a call, for callers outside.
ghost use Rattle.transcript.specs.Transcript.{was_given};
ghost use Rattle.words.specs.Model.{model_of};
ghost use Rattle.words.specs.Call.{call_of, window_of};
ghost use Rattle.answers.specs.Lines.{LineAnswered};

use crate::given::{transcript_of, window_of};
use answers::answer_line;
use words::{VareffectCall, VareffectModel, VareffectOutcome, VareffectWindow, call_of};

// The line, newline included, at the buffer's start: number 0 and its length; 28 and 0 where it does not fit.
pub fn vareffect_line(
    number: u64,
    window: VareffectWindow,
    bases: &[u8],
    call: VareffectCall,
    model: VareffectModel,
    exon_starts: &[u64],
    exon_ends: &[u64],
    seg_phases: &[u8],
    seg_exons: &[u16],
    seg_starts: &[u64],
    seg_ends: &[u64],
    selenocysteine: &[u64],
    out: &mut [u8],
) -> VareffectOutcome
    ensures { let t = was_given (model_of model) exon_starts exon_ends seg_phases seg_exons seg_starts seg_ends selenocysteine in
        let w = window_of window bases in
        LineAnswered t w (call_of call) number out.old out.new result }
{
    let transcript = transcript_of(
        model,
        exon_starts,
        exon_ends,
        seg_phases,
        seg_exons,
        seg_starts,
        seg_ends,
        selenocysteine,
    );
    answer_line(
        number,
        &window_of(window, bases),
        call_of(call),
        &transcript,
        out,
    )
}
