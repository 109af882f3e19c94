// Where the answers of a block stand.
ghost use Rattle.std.specs.Prelude.{◌≤◌};

use crate::counts::Kind;
use crate::numbers::count_at;

// Answers of a kind: how many stand from `first` on, `step` bytes apart, and where the
// transcript ends. An index is one answer, and its step is 0.
#[derive(Clone, Copy)]
pub(crate) struct Answers {
    pub kind: Kind,
    pub at: usize,
    pub count: u64,
    pub first: usize,
    pub step: usize,
    pub ghost bounded: { (at ≤ 12000) × (count ≤ 4096) × (first ≤ 80004) × (step ≤ 64) },
}

// Answers behind their count, which stands at `from`.
fn counted(b: &[u8], kind: Kind, at: usize, from: usize, step: usize) -> Answers
    requires { (at ≤ 12000) × (from ≤ 80000) × (step ≤ 64) }
{
    Answers {
        kind,
        at,
        count: count_at(b, from, 4096),
        first: from + 4,
        step,
    }
}

pub(crate) fn answers_of(b: &[u8], kind: Kind, at: usize) -> Answers
    requires { at ≤ 12000 }
{
    match kind {
        Kind::Transcripts => Answers {
            kind,
            at,
            count: 1,
            first: at,
            step: 0,
        },
        Kind::Places => counted(b, kind, at, at, 20),
        Kind::Intervals => counted(b, kind, at, at, 16),
        Kind::Calls => {
            let window = count_at(b, at + 8, 65536) as usize;
            counted(b, kind, at, at + 12 + window, 64)
        }
    }
}
