// Offsets and positions, from cumulative lengths.
ghost use Rattle.std.specs.Prelude.{◌≡◌, true, cond, ◌+◌, ◌-◌, ◌≤◌, ◌<◌, length, get_or};
ghost use Rattle.transcript.specs.Limits.{top};
ghost use Rattle.transcript.specs.Orient.{interval};
ghost use Rattle.transcript.specs.Bases.{inside, inside_any, bases_in};
ghost use Rattle.locate.specs.code.Ordered.{in_order};
ghost use Rattle.locate.specs.code.Sums.{first_sum, Sums};

use super::search::Ordered;
use super::{CdnaPosition, CdsOffset, ExonOrIntron};

// The sum at i and the bases from `start` to p. The bound of a sum comes from `Sums`, a fact of a list and its intervals: a type of the list
// alone cannot hold it.
pub(crate) fn offset_at(sums: &[u32], i: usize, start: u64, p: u64) -> u32
    requires { (i < length sums.now) × (get_or sums.now i 0 ≤ 2 + top) × (start ≤ p) × (p ≤ top) }
    ensures { result ≡ get_or sums.now i 0 + (p - start) }
{
    sums[i] + (p - start) as u32
}

// The padded offset of p, an oriented base of one of the intervals; `sums` are their cumulative lengths.
pub(crate) fn cds_offset_of(segments: &Ordered, sums: &[u32], p: u64) -> CdsOffset
    requires sums { Sums (in_order segments.now) sums.now }
    requires held { inside_any p (in_order segments.now) ≡ true }
    ensures { result.0 ≡ first_sum sums.now + bases_in (in_order segments.now) 0 p }
{
    let found = segments.find(p);
    match found {
        ExonOrIntron::Exon(exon) => CdsOffset(offset_at(sums, exon.index, exon.start, p)),
        ExonOrIntron::Intron(intron) => CdsOffset(0),
        ExonOrIntron::Outside => CdsOffset(0),
    }
}

// The exonic bases before the CDS, whose first base `from` lies in exon `first`; 0 where there is no CDS. The flag is tested here, as
// `last_exon` tests for segments: the same test at the one caller is no plainer.
pub(crate) fn utr5_length(
    coding: bool,
    exons: Ordered,
    sums: &[u32],
    first: usize,
    from: u64,
) -> u32
    requires sums { Sums (in_order exons) sums.now }
    requires first_held { let x = get_or (in_order exons) first (interval 0 0) in
        (coding ≡ true → (first < length exons.intervals.starts.now) × (inside from x ≡ true)) }
    ensures { result ≡ cond coding (first_sum sums.now + bases_in (in_order exons.entry) 0 from) 0 }
{
    if !coding {
        return 0;
    }
    offset_at(sums, first, exons.start(first), from)
}

// The cDNA position of a coding base, from its padded offset: the one place where the pad is subtracted.
pub fn cdna_position(utr5_exonic_len: u32, pad: u32, offset: CdsOffset) -> CdnaPosition
    requires { (pad ≤ offset.0) × (utr5_exonic_len + (offset.0 - pad) ≤ top) }
    ensures { result.0 ≡ utr5_exonic_len + (offset.0 - pad) + 1 }
{
    CdnaPosition(utr5_exonic_len + (offset.0 - pad) + 1)
}
