// The codons of the selenocysteine bases.
ghost use Rattle.std.specs.Prelude.{◌≡◌, map, ◌+◌, ◌/◌};
ghost use Rattle.transcript.specs.Orient.{orient_base};
ghost use Rattle.transcript.specs.Bases.{bases_in};
ghost use Rattle.locate.specs.code.Ordered.{in_order};
ghost use Rattle.locate.specs.code.Sums.{first_sum};
ghost use Rattle.common.specs.Stored.{filled};
ghost use Rattle.locate.specs.code.Coded.{Coded};

use super::CodonNumbers;
use super::positions::cds_offset_of;
use super::search::Ordered;
use transcript::question::base_of;

// The codon number of each selenocysteine base.
pub fn selenocysteine_codons(segments: &Ordered, sums: &[u32], bases: &[u64]) -> CodonNumbers
    requires { Coded segments.now.strand (in_order segments.now) sums.now bases.now }
    ensures { let xs = in_order segments.now in
        let first = first_sum sums.now in
        result.numbers ≡ filled 64 (map (λ b. (first + bases_in xs 0 b) / 3 + 1) (map (orient_base segments.now.strand) bases.now)) }
{
    let mut numbers = [0u32; 64];
    for (i, base) in bases.iter().enumerate() {
        let p = base_of(segments.strand, *base);
        let offset = cds_offset_of(segments, sums, p);
        numbers[i] = offset.0 / 3 + 1;
    }
    CodonNumbers { numbers }
}
