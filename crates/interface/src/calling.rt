// The answer to a call and the answers to many, for callers outside.
ghost use Rattle.transcript.specs.Transcript.{was_given};
ghost use Rattle.words.specs.Model.{model_of};
ghost use Rattle.words.specs.Call.{call_of, window_of};
ghost use Rattle.answers.specs.Calls.{CallAnswered, CallsAnswered};

use crate::given::{number_of, transcript_of, window_of};
use answers::{answer_call, answer_calls};
use words::{CallLists, VareffectCall, VareffectModel, VareffectWindow, call_of};

// The answer to a call as 20 numbers, or the number of the refusal.
pub fn vareffect_call(
    window: VareffectWindow,
    bases: &[u8],
    call: VareffectCall,
    model: VareffectModel,
    exon_starts: &[u64],
    exon_ends: &[u64],
    seg_phases: &[u8],
    seg_exons: &[u16],
    seg_starts: &[u64],
    seg_ends: &[u64],
    selenocysteine: &[u64],
    out: &mut [i64; 20],
) -> u8
    ensures { let t = was_given (model_of model) exon_starts exon_ends seg_phases seg_exons seg_starts seg_ends selenocysteine in
        let w = window_of window bases in
        CallAnswered t w (call_of call) out.old out.new result }
{
    let transcript = transcript_of(
        model,
        exon_starts,
        exon_ends,
        seg_phases,
        seg_exons,
        seg_starts,
        seg_ends,
        selenocysteine,
    );
    let answer = answer_call(&window_of(window, bases), call_of(call), &transcript, out);
    number_of(answer)
}

// For each call its answer as 20 numbers; 1 where the lists differ in length or `out` does not have 20 elements for each.
pub fn vareffect_calls(
    window: VareffectWindow,
    bases: &[u8],
    chromosomes: &[u16],
    positions: &[u64],
    refs: &[u8],
    alts: &[u8],
    model: VareffectModel,
    exon_starts: &[u64],
    exon_ends: &[u64],
    seg_phases: &[u8],
    seg_exons: &[u16],
    seg_starts: &[u64],
    seg_ends: &[u64],
    selenocysteine: &[u64],
    out: &mut [i64],
) -> u8
    ensures { let t = was_given (model_of model) exon_starts exon_ends seg_phases seg_exons seg_starts seg_ends selenocysteine in
        let w = window_of window bases in
        CallsAnswered t w chromosomes.now positions.now refs.now alts.now out.old out.new result }
{
    let transcript = transcript_of(
        model,
        exon_starts,
        exon_ends,
        seg_phases,
        seg_exons,
        seg_starts,
        seg_ends,
        selenocysteine,
    );
    let answer = answer_calls(
        &window_of(window, bases),
        &CallLists {
            chromosomes,
            positions,
            refs,
            alts,
        },
        &transcript,
        out,
    );
    number_of(answer)
}
