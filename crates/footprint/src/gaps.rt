// The gaps between neighbouring exons, in oriented coordinates, and whether one of them is short.
ghost use Rattle.std.specs.Prelude.{◌≡◌, ◌+◌, ◌<◌, length, get_or};
ghost use Rattle.common.specs.Lists.{any};
ghost use Rattle.transcript.specs.Orient.{interval};
ghost use Rattle.footprint.specs.code.Lent.{span_of, gaps_in};
ghost use Rattle.footprint.specs.ShortIntron.{is_frameshift_gap};

use super::span::Span;
use transcript::Stranded;

// The gap after exon i.
pub(crate) fn gap_after(exons: Stranded, i: usize) -> Span
    requires { (i + 1 < length exons.intervals.starts.now) × (i + 1 < length exons.intervals.ends.now) }
    ensures { span_of result ≡ get_or (gaps_in exons.entry.strand exons.entry.intervals) i (interval 0 0) }
{
    Span {
        start: exons.end(i),
        end: exons.start(i + 1),
    }
}

// The gap after exon i, none where no exon follows it.
pub(crate) fn gap_at(exons: Stranded, i: usize) -> Span
    ensures { span_of result ≡ get_or (gaps_in exons.entry.strand exons.entry.intervals) i (interval 0 0) }
{
    let intervals = exons.intervals;
    let n = intervals.starts.len().min(intervals.ends.len());
    if n <= i || n - i < 2 {
        return Span { start: 0, end: 0 };
    }
    gap_after(exons, i)
}

// Whether the gap has 1 to 13 bases.
pub(crate) fn is_frameshift_gap(gap: Span) -> bool
    ensures { result ≡ is_frameshift_gap (span_of gap) }
{
    let bases = gap.end.saturating_sub(gap.start);
    0 < bases && bases <= 13
}

// Whether a gap of the exons has 1 to 13 bases.
pub fn has_frameshift_intron(exons: Stranded) -> bool
    ensures { result ≡ any is_frameshift_gap (gaps_in exons.entry.strand exons.entry.intervals) }
{
    let intervals = exons.intervals;
    let n = intervals.starts.len().min(intervals.ends.len());
    for i in 0..n.saturating_sub(1) {
        if is_frameshift_gap(gap_after(exons, i)) {
            return true;
        }
    }
    false
}
