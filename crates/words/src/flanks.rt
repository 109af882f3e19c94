// The answers about an interval as numbers.
ghost use Rattle.std.specs.Prelude.{◌≡◌, ◌∷◌, [], pos, Ok};
ghost use Rattle.footprint.specs.Numbers.{flank_words, endpoint_words};
ghost use Rattle.words.specs.IntervalWords.{interval_words};
ghost use Rattle.words.specs.code.Put.{put_at};
ghost use Rattle.words.specs.code.Near.{capped_flank};

use crate::words::{cap, put_fitting};
use common::refusal::Refusal;
use footprint::{Flank, SpliceSpill};

// Kind and distance.
// Kinds as numbers: callers in C get them.
fn flank_counts(flank: Flank) -> (u32, u32)
    ensures { pos result.0 ∷ pos result.1 ∷ [] ≡ flank_words (Ok (capped_flank flank)) }
{
    match flank {
        Flank::Overlaps => (0, 0),
        Flank::Upstream(d) => (1, cap(d)),
        Flank::Downstream(d) => (2, cap(d)),
        Flank::Far => (3, 0),
    }
}

// Whether there is an intron, and its index.
fn intron_counts(intron: Result<Option<u16>, Refusal>) -> (u32, u32)
    ensures { pos result.0 ∷ pos result.1 ∷ [] ≡ endpoint_words intron }
{
    match intron {
        Ok(Some(index)) => (1, index as u32),
        Ok(None) | Err(_) => (0, 0),
    }
}

// The answers as 7 numbers.
fn interval_numbers(
    flank: Flank,
    intron: Result<Option<u16>, Refusal>,
    spill: SpliceSpill,
) -> [i64; 7]
    ensures { result ≡ interval_words (Ok (capped_flank flank)) intron (Ok spill) }
{
    let (kind, distance) = flank_counts(flank);
    let (found, index) = intron_counts(intron);
    [
        0,
        kind as i64,
        distance as i64,
        found as i64,
        index as i64,
        spill.donor as i64,
        spill.acceptor as i64,
    ]
}

// The same at the front of any buffer. Where it has fewer than 7 elements nothing is stored.
pub fn put_interval(
    out: &mut [i64],
    flank: Flank,
    intron: Result<Option<u16>, Refusal>,
    spill: SpliceSpill,
)
    ensures { out.new ≡ put_at out.old 0 (interval_words (Ok (capped_flank flank)) intron (Ok spill)) }
{
    put_fitting(out, 0, &interval_numbers(flank, intron, spill));
}
