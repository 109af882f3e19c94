// Refusals 8, 9 and 13: exon indexes and selenocysteine bases.
ghost use Rattle.std.specs.Prelude.{◌≡◌, [], ◌≤◌};
ghost use Rattle.std.specs.List.{list_any};
ghost use Rattle.common.specs.Refuse.{refuse};
ghost use Rattle.common.specs.Refusal.{outcome};
ghost use Rattle.transcript.specs.Limits.{max_exons};
ghost use Rattle.transcript.specs.Orient.{interval};
ghost use Rattle.transcript.specs.Bases.{inside};
ghost use Rattle.transcript.specs.Admission.{index_fault};
ghost use Rattle.transcript.specs.code.Lent.{any_lent};
ghost use Rattle.transcript.specs.code.Judged.{lent_none};

use super::{Intervals, Transcript};
use common::refusal::Refusal;

// 8, 9: the first index that names no exon, or one that an earlier index names.
pub(crate) fn judge_indexes(exons: usize, indexes: &[u16]) -> Result<(), Refusal>
    requires { exons ≤ max_exons }
    ensures { result ≡ outcome (index_fault exons [] indexes.now) tt }
{
    let mut seen = [false; 512];
    for index in indexes {
        let k = *index as usize;
        if exons <= k {
            return Err(Refusal::MissingExon);
        }
        if seen[k] {
            return Err(Refusal::RepeatedExon);
        }
        seen[k] = true;
    }
    Ok(())
}

// Whether [s, e) holds the base.
pub fn lies_in(p: u64, s: u64, e: u64) -> bool
    ensures { result ≡ inside p (interval s e) }
{
    s <= p && p < e
}

// Whether one of the intervals holds the base. By index: from two iterators side by side an interval costs more than half as much again.
pub(crate) fn holds_base(intervals: Intervals, p: u64) -> bool
    ensures { result ≡ any_lent (λ s e. inside p (interval s e)) intervals.entry }
{
    let n = intervals.starts.len().min(intervals.ends.len());
    for i in 0..n {
        if lies_in(p, intervals.starts[i], intervals.ends[i]) {
            return true;
        }
    }
    false
}

// 13: a base that no segment holds.
fn bad_selenocysteine(bases: &[u64], segments: Intervals) -> bool
    ensures { result ≡ list_any (lent_none segments.entry) bases.now }
{
    bases.iter().any(|base| !holds_base(segments, *base))
}

pub(crate) fn judge_selenocysteine(transcript: &Transcript) -> Result<(), Refusal>
    ensures { let t = transcript.now in
        result ≡ outcome (refuse (list_any (lent_none t.segments.bases) t.selenocysteine.now) 13 0) tt }
{
    if bad_selenocysteine(transcript.selenocysteine, transcript.segments.bases) {
        return Err(Refusal::Selenocysteine);
    }
    Ok(())
}
