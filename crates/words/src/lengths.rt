// Whether lent lists and a buffer fit each other.
ghost use Rattle.std.specs.Prelude.{◌≡◌};
ghost use Rattle.words.specs.Lengths.{calls_fit};

use super::{CALL_WORDS, CallLists};

// Whether the lists have one length and the buffer fits.
pub fn calls_fit(calls: &CallLists, out: &[i64]) -> bool
    ensures { let c = calls.now in
        result ≡ calls_fit c.chromosomes.now c.positions.now c.refs.now c.alts.now out.now }
{
    let n = calls.positions.len();
    calls.chromosomes.len() == n
        && calls.refs.len() == n
        && calls.alts.len() == n
        && out.len() % CALL_WORDS == 0
        && out.len() / CALL_WORDS == n
}
