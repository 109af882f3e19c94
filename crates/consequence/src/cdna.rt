// The cDNA position of an exon base.
ghost use Rattle.std.specs.Prelude.{◌≡◌, ◌+◌, ◌≤◌, ◌<◌, length, get_or};
ghost use Rattle.consequence.specs.Answer.{cdna_count};
ghost use Rattle.transcript.specs.Orient.{interval};
ghost use Rattle.transcript.specs.Bases.{bases_in};
ghost use Rattle.locate.specs.code.Ordered.{in_order};
ghost use Rattle.locate.specs.code.Sums.{first_sum, Sums};

use locate::{CdnaPosition, Ordered};

// The position of p, an oriented base of exon i: the exonic bases before the exon and its place there, from 1.
pub(crate) fn compute_cdna_position_exonic(
    exons: Ordered,
    sums: &[u32],
    i: usize,
    p: u64,
) -> CdnaPosition
    requires sums { Sums (in_order exons) sums.now × (first_sum sums.now ≡ 0) }
    requires held { let x = get_or (in_order exons) i (interval 0 0) in
        (i < length exons.intervals.starts.now) × (x.start ≤ p) × (p < x.end) }
    ensures { result.0 ≡ bases_in (in_order exons.entry) 0 p + 1 }
{
    let d = p - exons.start(i);
    CdnaPosition(sums[i] + d as u32 + 1)
}

// The position as a plain number, for the columns of a line.
pub fn cdna_count(n: Option<CdnaPosition>) -> Option<u32>
    ensures { result ≡ cdna_count n }
{
    n.map(|p| p.0)
}
