// The refusals of a call that come before its place is known.
ghost use Rattle.std.specs.Prelude.{◌≡◌, not, ◌||◌, eqb};
ghost use Rattle.common.specs.Refusal.{outcome};
ghost use Rattle.transcript.specs.Transcript.{Transcript};
ghost use Rattle.transcript.specs.Admission.{admission};
ghost use Rattle.consequence.specs.Window.{window_of};
ghost use Rattle.consequence.specs.Call.{bad_alt, window_refusal, opening_refusal};

use super::bases::base_at;
use super::{Call, Window};
use codon::is_base;
use common::refusal::Refusal;
use transcript::question::QUERY_LIMIT;

// 16: alt is no base, or it is ref.
fn bad_alt(call: Call) -> bool
    ensures { result ≡ bad_alt call }
{
    !is_base(call.alt_base) || call.alt_base == call.ref_base
}

// 14: a chromosome that is not the transcript's.
fn is_elsewhere(chromosome: u16, call: u16, window: u16) -> bool
    ensures { result ≡ (not (eqb call chromosome) || not (eqb window chromosome)) }
{
    call != chromosome || window != chromosome
}

// 17 for a position outside the window, 18 for another byte there.
fn judge_base(window: &Window, call: Call) -> Result<(), Refusal>
    ensures { result ≡ outcome (window_refusal (window_of window.now) call) tt }
{
    let Some(found) = base_at(window, call.position) else {
        return Err(Refusal::OutsideWindow);
    };
    if call.ref_base != found {
        return Err(Refusal::ReferenceBase);
    }
    Ok(())
}

// 15, 14, 16, 17 and 18. The call asks about [p, p + 1).
pub fn judge_opening(chromosome: u16, window: &Window, call: Call) -> Result<(), Refusal>
    ensures { (t : Transcript)
        → admission t ≡ 0
        → t.model.chromosome ≡ chromosome
        → result ≡ outcome (opening_refusal t (window_of window.now) call) tt }
{
    if QUERY_LIMIT <= call.position {
        return Err(Refusal::Interval);
    }
    if is_elsewhere(chromosome, call.chromosome, window.chromosome) {
        return Err(Refusal::Chromosome);
    }
    if bad_alt(call) {
        return Err(Refusal::AlteredBase);
    }
    judge_base(window, call)
}
