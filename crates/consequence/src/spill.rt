// The splice spill at one base: only the gaps beside the exon that holds it can have a window there.
ghost use Rattle.std.specs.Prelude.{◌≡◌, ◌+◌, ◌≤◌, length};
ghost use Rattle.common.specs.Lists.{any};
ghost use Rattle.transcript.specs.Limits.{top};
ghost use Rattle.transcript.specs.Orient.{interval, Oriented};
ghost use Rattle.transcript.specs.Bases.{gaps};
ghost use Rattle.footprint.specs.ShortIntron.{is_frameshift_gap, donor_window, acceptor_window, spills_into, exonic_splice_spill};
ghost use Rattle.locate.specs.code.Ordered.{in_order};
ghost use Rattle.locate.specs.code.Search.{Started};

use footprint::{SpliceSpill, acceptor_spill, donor_spill};
use locate::Ordered;

// Whether p, an oriented base, hits a donor window; n exons start at or before it.
fn hits_donor(exons: Ordered, n: usize, p: u64) -> bool
    requires n_in_bounds { (n ≤ length exons.intervals.starts.now) × Started (in_order exons) p n }
    ensures { result ≡ any (spills_into donor_window (interval p (p + 1))) (gaps (in_order exons.entry)) }
{
    if n < 2 {
        return false;
    }
    donor_spill(exons.stranded(), n - 2, p)
}

// Whether p hits an acceptor window.
fn hits_acceptor(exons: Ordered, n: usize, p: u64) -> bool
    requires n_in_bounds { (n ≤ length exons.intervals.starts.now) × Started (in_order exons) p n }
    requires p_le_top { p ≤ top }
    ensures { result ≡ any (spills_into acceptor_window (interval p (p + 1))) (gaps (in_order exons.entry)) }
{
    if n == 0 {
        return false;
    }
    if n == exons.intervals.starts.len() {
        return false;
    }
    acceptor_spill(exons.stranded(), n - 1, p)
}

// The windows that p, an oriented base, hits. Without a short intron, `short`, there are none.
// Inlined, since mostly there is none.
#[inline(always)]
pub fn spill_at(short: bool, exons: Ordered, p: u64) -> SpliceSpill
    requires p_le_top { p ≤ top }
    ensures { (t : Oriented)
        → t.exons ≡ in_order exons.entry
        → short ≡ any is_frameshift_gap (gaps t.exons)
        → result ≡ exonic_splice_spill t (interval p (p + 1)) }
{
    if !short {
        return SpliceSpill {
            donor: false,
            acceptor: false,
        };
    }
    let n = exons.started(p);
    SpliceSpill {
        donor: hits_donor(exons, n, p),
        acceptor: hits_acceptor(exons, n, p),
    }
}
