// A call from what is handed in.
ghost use Rattle.std.specs.Prelude.{◌≡◌};
ghost use Rattle.words.specs.Call.{call_of};

use super::VareffectCall;
use consequence::Call;

// A function and no `From`, as model_of: its contract names the definition, and an impl is no plainer.
pub fn call_of(call: VareffectCall) -> Call
    ensures { result ≡ call_of call }
{
    Call {
        chromosome: call.chromosome,
        position: call.position,
        ref_base: call.ref_base,
        alt_base: call.alt_base,
    }
}
