// The answers to many calls on one transcript.
ghost use Rattle.std.specs.Prelude.{◌≡◌, ◌<◌, ◌^◌, true, length, get_or};
ghost use Rattle.common.specs.Refusal.{outcome_number};
ghost use Rattle.transcript.specs.Transcript.{transcript_of};
ghost use Rattle.consequence.specs.Window.{window_of};
ghost use Rattle.words.specs.Lengths.{calls_fit};
ghost use Rattle.answers.specs.Calls.{snv, calls_of, calls_words, CallsAnswered};

use crate::lent::{Coded, Indexed};
use crate::snv::put_snv;
use codon::altered_letters;
use common::refusal::Refusal;
use consequence::{Call, Window, call_letters};
use footprint::{Ranges, source_ranges};
use locate::index_of;
use transcript::Transcript;
use transcript::admission::Admitted;
use words::{CALL_WORDS, CallLists, calls_fit};

// Call i of the lists.
fn call_at(calls: &CallLists, i: usize) -> Call
    requires { let c = calls.now in
        (i < length c.chromosomes.now) × (i < length c.positions.now) × (i < length c.refs.now) × (i < length c.alts.now) }
    ensures { let c = calls.now in
        result ≡ snv (get_or c.chromosomes.now i 0) (get_or c.positions.now i 0) (get_or c.refs.now i 0) (get_or c.alts.now i 0) }
{
    Call {
        chromosome: calls.chromosomes[i],
        position: calls.positions[i],
        ref_base: calls.refs[i],
        alt_base: calls.alts[i],
    }
}

// The answers one behind the other.
// By index: what `chunks_exact_mut` leaves in the buffer no proof knows.
// That the flank is small is a fact of one number: as a ghost field it would narrow footprint's Ranges.
fn put_calls(ranges: Ranges, window: &Window, calls: &CallLists, coded: Coded, out: &mut [i64])
    requires near { ranges.flank < 2 ^ 32 }
    requires fits { let c = calls.now in
        calls_fit c.chromosomes.now c.positions.now c.refs.now c.alts.now out.old ≡ true }
    ensures { let w = window_of window.now in
        let c = calls.now in
        let asked = calls_of c.chromosomes.now c.positions.now c.refs.now c.alts.now in
        out.new ≡ calls_words ranges (transcript_of coded.entry.indexed.admitted.transcript.now) w asked }
{
    for i in 0..calls.positions.len() {
        let call = call_at(calls, i);
        let at = CALL_WORDS * i;
        put_snv(ranges, window, call, coded, &mut out[at..at + CALL_WORDS]);
    }
}

// The same of a transcript that may be refused, with lists and a buffer that may not fit.
pub fn answer_calls(
    window: &Window,
    calls: &CallLists,
    transcript: &Transcript,
    out: &mut [i64],
) -> Result<(), Refusal>
    ensures { let t = transcript_of transcript.now in
        let w = window_of window.now in
        let c = calls.now in
        CallsAnswered t w c.chromosomes.now c.positions.now c.refs.now c.alts.now out.old out.new (outcome_number result) }
{
    if !calls_fit(calls, out) {
        return Err(Refusal::Counts);
    }
    let admitted = Admitted::of(transcript)?;
    let both = altered_letters();
    let index = index_of(admitted);
    put_calls(
        source_ranges(),
        window,
        calls,
        Coded {
            indexed: Indexed {
                admitted,
                index: &index,
            },
            letters: call_letters(&both, admitted.transcript.model.chromosome),
        },
        out,
    );
    Ok(())
}
