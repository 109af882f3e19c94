// Places as the lists have them: 16 bytes.
ghost use Rattle.std.specs.Prelude.{◌<◌};

use crate::numbers::{byte_at, u16_at, u32_at};
use locate::{SpliceSide, VariantLocation};

// A four-byte number with its sign.
fn signed_of(x: u64) -> i64
    requires { x < 4294967296 }
{
    i64::from((x as u32).cast_signed())
}

// A distance as the lists can hold it, -1 where they cannot.
fn bounded(x: u64) -> i64 {
    i32::try_from(x).map_or(-1, i64::from)
}

// The case, in the order of declaration.
// Numbers of the stored list: an enum whose cases hold fields is not cast.
fn kind_of(place: VariantLocation) -> u64 {
    match place {
        VariantLocation::Upstream { .. } => 0,
        VariantLocation::Downstream { .. } => 1,
        VariantLocation::Distal => 2,
        VariantLocation::FivePrimeUtr { .. } => 3,
        VariantLocation::CdsExon { .. } => 4,
        VariantLocation::ThreePrimeUtr { .. } => 5,
        VariantLocation::SpliceDonor { .. } => 6,
        VariantLocation::SpliceAcceptor { .. } => 7,
        VariantLocation::SpliceRegion { .. } => 8,
        VariantLocation::Intron { .. } => 9,
        VariantLocation::FrameshiftIntron { .. } => 10,
        VariantLocation::NonCodingExon { .. } => 11,
        VariantLocation::NonCodingIntron { .. } => 12,
    }
}

// The splice mark of an exon base; of a splice region whether its side is the acceptor's.
// One column of the list, which lies in other fields from case to case; so the next two.
fn mark_of(place: VariantLocation) -> bool {
    match place {
        VariantLocation::FivePrimeUtr {
            is_splice_region,
            ..
        }
        | VariantLocation::CdsExon {
            is_splice_region,
            ..
        }
        | VariantLocation::ThreePrimeUtr {
            is_splice_region,
            ..
        }
        | VariantLocation::NonCodingExon {
            is_splice_region,
            ..
        } => is_splice_region,
        VariantLocation::SpliceRegion { side, .. } => matches!(side, SpliceSide::Acceptor),
        _ => false,
    }
}

// The exon or the intron.
fn index_of(place: VariantLocation) -> u16 {
    match place {
        VariantLocation::FivePrimeUtr { exon_index, .. }
        | VariantLocation::CdsExon { exon_index, .. }
        | VariantLocation::ThreePrimeUtr { exon_index, .. }
        | VariantLocation::NonCodingExon { exon_index, .. } => exon_index,
        VariantLocation::SpliceDonor { intron_index, .. }
        | VariantLocation::SpliceAcceptor { intron_index, .. }
        | VariantLocation::SpliceRegion { intron_index, .. }
        | VariantLocation::Intron { intron_index, .. }
        | VariantLocation::FrameshiftIntron { intron_index, .. }
        | VariantLocation::NonCodingIntron { intron_index, .. } => intron_index,
        _ => 0,
    }
}

// The distance or the offset.
fn distance_of(place: VariantLocation) -> i64 {
    match place {
        VariantLocation::Upstream { distance } => bounded(distance),
        VariantLocation::Downstream { distance } => bounded(distance),
        VariantLocation::FivePrimeUtr {
            offset_from_cds_start,
            ..
        } => offset_from_cds_start,
        VariantLocation::CdsExon { cds_offset, .. } => bounded(u64::from(cds_offset.0)),
        VariantLocation::ThreePrimeUtr {
            offset_from_cds_end,
            ..
        } => offset_from_cds_end,
        VariantLocation::SpliceDonor { offset, .. } => bounded(u64::from(offset)),
        VariantLocation::SpliceAcceptor { offset, .. } => bounded(u64::from(offset)),
        VariantLocation::SpliceRegion { distance, .. } => distance,
        VariantLocation::Intron {
            distance_to_nearest_exon,
            ..
        } => distance_to_nearest_exon,
        VariantLocation::FrameshiftIntron {
            distance_to_nearest_exon,
            ..
        } => distance_to_nearest_exon,
        VariantLocation::NonCodingIntron {
            distance_to_nearest_exon,
            ..
        } => distance_to_nearest_exon,
        VariantLocation::Distal | VariantLocation::NonCodingExon { .. } => 0,
    }
}

// The segment, the position in the codon and the codon's number of a coding base, zeros of any other.
fn coding_of(place: VariantLocation) -> (u16, u8, u32) {
    match place {
        VariantLocation::CdsExon {
            cds_segment_index,
            codon_position,
            codon_number,
            ..
        } => (cds_segment_index, codon_position, codon_number),
        _ => (0, 0, 0),
    }
}

// Whether the place is the one that stands here.
pub(crate) fn same_place(b: &[u8], place: VariantLocation) -> bool {
    let (segment, position, number) = coding_of(place);
    kind_of(place) == byte_at(b, 0)
        && mark_of(place) == (byte_at(b, 1) == 1)
        && u64::from(index_of(place)) == u16_at(b, 2)
        && u64::from(segment) == u16_at(b, 4)
        && u64::from(position) == byte_at(b, 6)
        && u64::from(number) == u32_at(b, 12)
        && distance_of(place) == signed_of(u32_at(b, 8))
}
