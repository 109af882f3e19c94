// Intervals in oriented coordinates.
ghost use Rattle.std.specs.Prelude.{◌≡◌, ◌≤◌};
ghost use Rattle.transcript.specs.Limits.{top};
ghost use Rattle.transcript.specs.Orient.{orient};
ghost use Rattle.footprint.specs.code.Lent.{span_of};
ghost use Rattle.footprint.specs.ShortIntron.{overlap};

use transcript::Strand;
use transcript::oriented::{end_of, start_of};

// The bases from `start` to just before `end`.
#[derive(Clone, Copy, PartialEq, Eq)]
pub struct Span {
    pub start: u64,
    pub end: u64,
}

// [s, e), oriented: a function of a strand and two edges, as `start_of` is.
pub(crate) fn span_of(strand: Strand, s: u64, e: u64) -> Span
    requires { (s ≤ top) × (e ≤ top) }
    ensures { span_of result ≡ orient strand s e }
{
    Span {
        start: start_of(strand, s, e),
        end: end_of(strand, s, e),
    }
}

pub(crate) fn overlaps(q: Span, x: Span) -> bool
    ensures { result ≡ overlap (span_of q) (span_of x) }
{
    q.start < x.end && x.start < q.end
}
