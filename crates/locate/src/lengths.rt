// Lengths summed up to an interval, where no cumulative lengths are kept.
ghost use Rattle.std.specs.Prelude.{◌≡◌, true, map, ◌≤◌, ◌<◌, length, get_or};
ghost use Rattle.transcript.specs.Orient.{interval};
ghost use Rattle.transcript.specs.Bases.{inside, bases_in};
ghost use Rattle.transcript.specs.code.Lent.{exon_size, exons_in};
ghost use Rattle.locate.specs.Index.{cumulative};
ghost use Rattle.locate.specs.code.Ordered.{in_order};

use super::search::Ordered;

// The length of the first n intervals.
pub(crate) fn length_before(ordered: Ordered, n: usize) -> u32
    requires { n ≤ length ordered.intervals.starts.now }
    ensures { result ≡ get_or (cumulative 0 (map exon_size (exons_in ordered.entry.intervals))) n 0 }
{
    let intervals = ordered.intervals;
    let mut acc: u32 = 0;
    for i in 0..n {
        acc += (intervals.ends[i] - intervals.starts[i]) as u32;
    }
    acc
}

// How many exonic bases lie before p, an oriented base of exon k.
pub(crate) fn bases_before(exons: Ordered, k: usize, p: u64) -> u32
    requires held { (k < length exons.intervals.starts.now) × (inside p (get_or (in_order exons) k (interval 0 0)) ≡ true) }
    ensures { result ≡ bases_in (in_order exons.entry) 0 p }
{
    length_before(exons, k) + (p - exons.start(k)) as u32
}
