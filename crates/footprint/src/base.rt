// The splice windows of short introns that one base hits, in oriented coordinates. Only the windows of a gap of one base reach past
// it, by one base on each side.
ghost use Rattle.std.specs.Prelude.{◌≡◌, ◌+◌, get_or};
ghost use Rattle.transcript.specs.Orient.{interval};
ghost use Rattle.footprint.specs.code.Lent.{span_of, gaps_in};
ghost use Rattle.footprint.specs.ShortIntron.{donor_window, acceptor_window, spills_into};

use super::gaps::gap_at;
use super::span::Span;
use transcript::Stranded;

// Whether p is the base behind a gap of one base.
pub(crate) fn hits_donor(gap: Span, p: u64) -> bool
    ensures { result ≡ spills_into donor_window (interval p (p + 1)) (span_of gap) }
{
    gap.end == p && gap.start < p && p - gap.start == 1
}

// Whether p is the base before a gap of one base.
pub(crate) fn hits_acceptor(gap: Span, p: u64) -> bool
    ensures { result ≡ spills_into acceptor_window (interval p (p + 1)) (span_of gap) }
{
    p < gap.start && gap.start - p == 1 && gap.start < gap.end && gap.end - gap.start == 1
}

// Whether p hits the donor window of the gap after exon i.
pub fn donor_spill(exons: Stranded, i: usize, p: u64) -> bool
    ensures { let gap = get_or (gaps_in exons.entry.strand exons.entry.intervals) i (interval 0 0) in
        result ≡ spills_into donor_window (interval p (p + 1)) gap }
{
    hits_donor(gap_at(exons, i), p)
}

// Whether p hits its acceptor window.
pub fn acceptor_spill(exons: Stranded, i: usize, p: u64) -> bool
    ensures { let gap = get_or (gaps_in exons.entry.strand exons.entry.intervals) i (interval 0 0) in
        result ≡ spills_into acceptor_window (interval p (p + 1)) gap }
{
    hits_acceptor(gap_at(exons, i), p)
}
