// Intervals that can be searched, and the exon or intron that holds a base: a binary search over the oriented starts.
ghost use Rattle.std.specs.Prelude.{◌≡◌, ◌≤◌, ◌<◌, length, get_or};
ghost use Rattle.transcript.specs.Orient.{interval};
ghost use Rattle.transcript.specs.Bases.{first_start};
ghost use Rattle.locate.specs.Find.{find_exon_or_intron};
ghost use Rattle.locate.specs.code.Search.{Ready, Started, LastStart, exon_or_intron, FoundAt};

use super::{ExonOrIntron, Feature};
use transcript::admission::Admitted;
use transcript::{Intervals, Strand, Stranded};

// Intervals in strand order, none of them empty, no two overlapping: what can be searched. The strand stands last: before the lists, what
// pads it was copied in odd parts, and each call of a list took 7 ns longer. It repeats the fields of
// `Stranded` and holds none: callers read `exons.intervals`, and a path longer by a name is no plainer.
#[derive(Clone, Copy)]
pub struct Ordered<'a> {
    pub intervals: Intervals<'a>,
    pub strand: Strand,
    pub ghost ready: { Ready strand intervals.starts.now intervals.ends.now },
}

// An interval by its index, with its start.
#[derive(Clone, Copy)]
struct LastStarted {
    index: usize,
    start: u64,
}

impl<'a> Ordered<'a> {
    ghost use Rattle.locate.specs.code.Ordered.{in_order};

    // The exons of an admitted transcript.
    pub fn exons(admitted: Admitted<'a>) -> Ordered<'a>
        ensures { let t = admitted.entry.transcript.now in
            (result.strand ≡ t.model.strand) × (result.intervals ≡ t.exons) }
    {
        let transcript = admitted.transcript;
        Ordered {
            intervals: transcript.exons,
            strand: transcript.model.strand,
        }
    }

    // Its CDS segments.
    pub fn segments(admitted: Admitted<'a>) -> Ordered<'a>
        ensures { let t = admitted.entry.transcript.now in
            (result.strand ≡ t.model.strand) × (result.intervals ≡ t.segments.bases) }
    {
        let transcript = admitted.transcript;
        Ordered {
            intervals: transcript.segments.bases,
            strand: transcript.model.strand,
        }
    }

    // The same without the fact.
    #[inline(always)]
    pub fn stranded(self) -> Stranded<'a>
        ensures { (result.strand ≡ self.entry.strand) × (result.intervals ≡ self.entry.intervals) }
    {
        Stranded {
            intervals: self.intervals,
            strand: self.strand,
        }
    }

    // Where interval i starts, an oriented coordinate.
    #[inline(always)]
    pub fn start(self, i: usize) -> u64
        requires { i < length self.intervals.starts.now }
        ensures { result ≡ (get_or (in_order self.entry) i (interval 0 0)).start }
    {
        self.stranded().start(i)
    }

    // Where it ends.
    #[inline(always)]
    pub fn end(self, i: usize) -> u64
        requires { i < length self.intervals.starts.now }
        ensures { result ≡ (get_or (in_order self.entry) i (interval 0 0)).end }
    {
        self.stranded().end(i)
    }

    // The last that starts at or before p, an oriented coordinate at or after the first start. The start goes along with the index, so
    // that the compiler makes a step of conditional moves: jumps are hard to foretell, also where bases come in order. No
    // partition_point: a call for each strand's list is no plainer, and the order of each list would be proved apart.
    // That p is not before the first is a fact of p and these intervals, handed down one private chain of calls.
    #[inline(always)]
    fn last_started(self, p: u64) -> LastStarted
        requires some { 0 < length self.intervals.starts.now }
        requires ends_bound { first_start (in_order self) ≤ p }
        ensures { LastStart (in_order self.entry) p result.index result.start }
    {
        let mut index: usize = 0;
        let mut start = self.start(index);
        let mut left = self.intervals.starts.len();
        while 1 < left {
            let half = left / 2;
            let mid = index + half;
            let at = self.start(mid);
            if at <= p {
                index = mid;
                start = at;
            }
            left -= half;
        }
        LastStarted { index, start }
    }

    // How many start at or before p, an oriented coordinate.
    pub fn started(self, p: u64) -> usize
        ensures { (result ≤ length self.entry.intervals.starts.now) × Started (in_order self.entry) p result }
    {
        if self.intervals.starts.is_empty() {
            return 0;
        }
        if p < self.start(0) {
            return 0;
        }
        self.last_started(p).index + 1
    }

    // The exon or intron that holds p, with its edges. Inlined, as what it calls: a place handed back through memory takes longer than
    // the search.
    #[inline(always)]
    pub(crate) fn find(self, p: u64) -> ExonOrIntron
        requires some { 0 < length self.intervals.starts.now }
        requires ends_bound { first_start (in_order self) ≤ p }
        ensures { let xs = in_order self.entry in
            (result ≡ exon_or_intron (find_exon_or_intron xs p)) × FoundAt xs p result }
    {
        let last = self.last_started(p);
        let i = last.index;
        let n = i + 1;
        let past = self.end(i);
        if p < past {
            return ExonOrIntron::Exon(Feature {
                index: i,
                start: last.start,
                end: past,
            });
        }
        if n < self.intervals.starts.len() {
            return ExonOrIntron::Intron(Feature {
                index: i,
                start: past,
                end: self.start(n),
            });
        }
        ExonOrIntron::Outside
    }
}
