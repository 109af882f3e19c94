// Oriented coordinates: the rule of a strand, by match, which no derive or method of std has. Functions of a strand and two edges, as
// `orient` is that they are proved against: methods of `Strand` are no plainer.
ghost use Rattle.std.specs.Prelude.{◌≡◌, ◌-◌, ◌≤◌, ◌<◌, length, get_or};
ghost use Rattle.transcript.specs.Limits.{top, coordinate_limit};
ghost use Rattle.transcript.specs.Orient.{orient, orient_base};
ghost use Rattle.transcript.specs.code.Stranded.{interval_at};

use super::{Strand, Stranded, Transcript};

// Above every coordinate.
const TOP: u64 = 2_000_000_000;

// The first base of [s, e), oriented, where e is not above `top`: admission, which has tested that, spends no further test.
pub(crate) fn start_within(strand: Strand, s: u64, e: u64) -> u64
    requires { e ≤ top }
    ensures { result ≡ (orient strand s e).start }
{
    match strand {
        Strand::Plus => s,
        Strand::Minus => TOP - e,
    }
}

// Past the last base of [s, e), oriented, where s is not above `top`.
pub(crate) fn end_within(strand: Strand, s: u64, e: u64) -> u64
    requires { s ≤ top }
    ensures { result ≡ (orient strand s e).end }
{
    match strand {
        Strand::Plus => e,
        Strand::Minus => TOP - s,
    }
}

// The first base of [s, e), oriented.
pub fn start_of(strand: Strand, s: u64, e: u64) -> u64
    ensures { result ≡ (orient strand s e).start }
{
    match strand {
        Strand::Plus => s,
        Strand::Minus => TOP.saturating_sub(e),
    }
}

// Past the last base of [s, e), oriented.
pub fn end_of(strand: Strand, s: u64, e: u64) -> u64
    ensures { result ≡ (orient strand s e).end }
{
    match strand {
        Strand::Plus => e,
        Strand::Minus => TOP.saturating_sub(s),
    }
}

// The first base of [s, e) in strand order, as a coordinate. That e is within the limit is one comparison: a type for it would be unwrapped
// at each edge, and is no plainer.
pub(crate) fn first_base(strand: Strand, s: u64, e: u64) -> u64
    requires { (s < e) × (e ≤ coordinate_limit) }
    ensures { orient_base strand result ≡ (orient strand s e).start }
{
    match strand {
        Strand::Plus => s,
        Strand::Minus => e - 1,
    }
}

// The last base of [s, e) in strand order, as a coordinate.
pub(crate) fn last_base(strand: Strand, s: u64, e: u64) -> u64
    requires { (s < e) × (e ≤ coordinate_limit) }
    ensures { orient_base strand result ≡ (orient strand s e).end - 1 }
{
    match strand {
        Strand::Plus => e - 1,
        Strand::Minus => s,
    }
}

// Interval i is within bounds by each caller's loop or search. Both its edges are read, then one is taken: so the compiler needs no jump.
// A method for each edge, alike in shape: a parameter that chooses would be another match.
impl<'a> Stranded<'a> {
    // A transcript's exons.
    #[inline(always)]
    pub fn exons(transcript: &Transcript<'a>) -> Stranded<'a>
        ensures { (result.strand ≡ transcript.now.model.strand) × (result.intervals ≡ transcript.now.exons) }
    {
        Stranded {
            intervals: transcript.exons,
            strand: transcript.model.strand,
        }
    }

    // Its CDS segments.
    #[inline(always)]
    pub fn segments(transcript: &Transcript<'a>) -> Stranded<'a>
        ensures { (result.strand ≡ transcript.now.model.strand) × (result.intervals ≡ transcript.now.segments.bases) }
    {
        Stranded {
            intervals: transcript.segments.bases,
            strand: transcript.model.strand,
        }
    }

    // The first base of interval i, oriented.
    #[inline(always)]
    pub fn start(self, i: usize) -> u64
        requires { (i < length self.intervals.starts.now) × (i < length self.intervals.ends.now) }
        ensures { result ≡ (interval_at self.entry i).start }
    {
        let s = self.intervals.starts[i];
        let e = self.intervals.ends[i];
        start_of(self.strand, s, e)
    }

    // Past its last base.
    #[inline(always)]
    pub fn end(self, i: usize) -> u64
        requires { (i < length self.intervals.starts.now) × (i < length self.intervals.ends.now) }
        ensures { result ≡ (interval_at self.entry i).end }
    {
        let s = self.intervals.starts[i];
        let e = self.intervals.ends[i];
        end_of(self.strand, s, e)
    }

    // The same of an interval within `top`.
    #[inline(always)]
    pub(crate) fn start_within(self, i: usize) -> u64
        requires in_bounds { (i < length self.intervals.starts.now) × (i < length self.intervals.ends.now) }
        requires within { get_or self.intervals.ends.now i 0 ≤ top }
        ensures { result ≡ (interval_at self.entry i).start }
    {
        let s = self.intervals.starts[i];
        let e = self.intervals.ends[i];
        start_within(self.strand, s, e)
    }

    #[inline(always)]
    pub(crate) fn end_within(self, i: usize) -> u64
        requires in_bounds { (i < length self.intervals.starts.now) × (i < length self.intervals.ends.now) }
        requires within { get_or self.intervals.starts.now i 0 ≤ top }
        ensures { result ≡ (interval_at self.entry i).end }
    {
        let s = self.intervals.starts[i];
        let e = self.intervals.ends[i];
        end_within(self.strand, s, e)
    }
}
