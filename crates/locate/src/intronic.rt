// The place of an intron base, from its distances to the two exons.
ghost use Rattle.std.specs.Prelude.{◌≡◌, ◌+◌, ◌-◌, ◌≤◌, ◌<◌, length, ltb};
ghost use Rattle.transcript.specs.Limits.{top, max_exons};
ghost use Rattle.locate.specs.code.Features.{bases_of};
ghost use Rattle.locate.specs.Intronic.{signed_distance, splice_region, deep_intron, classify_distances, classify_intronic};

use super::{Feature, SpliceSide, VariantLocation};
use footprint::Ranges;
use transcript::Transcript;

// How far an intron base lies from the exon before the intron and from the one behind it, each counted from 1.
#[derive(Clone, Copy)]
pub(crate) struct Distances {
    pub(crate) donor: u64,
    pub(crate) acceptor: u64,
    ghost low: { (donor ≤ top) × (acceptor ≤ top) },
}

// Plus the donor distance where it is at most the acceptor distance, else minus the acceptor distance.
pub(crate) fn signed_distance(distances: Distances) -> i64
    ensures { result ≡ signed_distance distances.donor distances.acceptor }
{
    let d = distances.donor;
    let a = distances.acceptor;
    if d <= a { d as i64 } else { -(a as i64) }
}

// The side in range; where both are, the nearer one, the donor on a tie.
pub(crate) fn splice_region(ranges: Ranges, i: u16, distances: Distances) -> VariantLocation
    ensures { result ≡ splice_region ranges i distances.donor distances.acceptor }
{
    let d = distances.donor;
    let a = distances.acceptor;
    let donor = ranges.donor;
    let acceptor = ranges.acceptor;
    if donor < d {
        return VariantLocation::SpliceRegion {
            intron_index: i,
            side: SpliceSide::Acceptor,
            distance: -(a as i64),
        };
    }
    if acceptor < a {
        return VariantLocation::SpliceRegion {
            intron_index: i,
            side: SpliceSide::Donor,
            distance: d as i64,
        };
    }
    if d <= a {
        return VariantLocation::SpliceRegion {
            intron_index: i,
            side: SpliceSide::Donor,
            distance: d as i64,
        };
    }
    VariantLocation::SpliceRegion {
        intron_index: i,
        side: SpliceSide::Acceptor,
        distance: -(a as i64),
    }
}

pub(crate) fn deep_intron(coding: bool, i: u16, distance: i64) -> VariantLocation
    ensures { result ≡ deep_intron coding i distance }
{
    if coding {
        return VariantLocation::Intron {
            intron_index: i,
            distance_to_nearest_exon: distance,
        };
    }
    VariantLocation::NonCodingIntron {
        intron_index: i,
        distance_to_nearest_exon: distance,
    }
}

// The place in intron i of length `gap`, at these distances.
pub(crate) fn classify_distances(
    ranges: Ranges,
    coding: bool,
    i: u16,
    gap: u64,
    distances: Distances,
) -> VariantLocation
    ensures { result ≡ classify_distances ranges coding i gap distances.donor distances.acceptor }
{
    let d = distances.donor;
    let a = distances.acceptor;
    let donor = ranges.donor;
    let acceptor = ranges.acceptor;
    if gap <= 13 {
        return VariantLocation::FrameshiftIntron {
            intron_index: i,
            distance_to_nearest_exon: signed_distance(distances),
        };
    }
    if d <= 2 {
        return VariantLocation::SpliceDonor {
            intron_index: i,
            offset: d as u8,
        };
    }
    if a <= 2 {
        return VariantLocation::SpliceAcceptor {
            intron_index: i,
            offset: a as u8,
        };
    }
    if d <= donor {
        return splice_region(ranges, i, distances);
    }
    if a <= acceptor {
        return splice_region(ranges, i, distances);
    }
    deep_intron(coding, i, signed_distance(distances))
}

// The place of the base p of an intron.
pub(crate) fn classify_intronic(
    ranges: Ranges,
    transcript: &Transcript,
    intron: Feature,
    p: u64,
) -> VariantLocation
    requires { (intron.index < max_exons) × (intron.start ≤ p) × (p < intron.end) × (intron.end ≤ top) }
    ensures { let coding = ltb 0 (length transcript.now.segments.bases.starts.now) in
        result ≡ classify_intronic ranges coding intron.index (bases_of intron) p }
{
    let coding = 0 < transcript.segments.bases.starts.len();
    let distances = Distances {
        donor: p - intron.start + 1,
        acceptor: intron.end - p,
    };
    classify_distances(
        ranges,
        coding,
        intron.index as u16,
        intron.end - intron.start,
        distances,
    )
}
