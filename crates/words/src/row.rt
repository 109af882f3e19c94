// A place as a row of numbers.
ghost use Rattle.std.specs.Prelude.{◌≡◌, ◌∷◌, pos};
ghost use Rattle.locate.specs.Numbers.{plain_words, place_words};
ghost use Rattle.words.specs.code.Row.{row_words};
ghost use Rattle.words.specs.code.Near.{capped_place};

use crate::words::cap;
use locate::VariantLocation;

// The numbers of a place. All but the distance count.
#[derive(Clone, Copy)]
pub(crate) struct Row {
    pub kind: u32,
    pub mark: u32,
    pub index: u32,
    pub segment: u32,
    pub position: u32,
    pub distance: i64,
    pub number: u32,
}

// A row with no segment, codon position or codon number.
// Kinds as numbers: callers in C get them, in the order of VariantLocation's cases.
fn plain(kind: u32, mark: u32, index: u16, distance: i64) -> Row
    ensures { row_words result ≡ pos kind ∷ plain_words mark index distance }
{
    Row {
        kind,
        mark,
        index: index as u32,
        segment: 0,
        position: 0,
        distance,
        number: 0,
    }
}

pub(crate) fn row_of(place: VariantLocation) -> Row
    ensures { row_words result ≡ place_words (capped_place place) }
{
    match place {
        VariantLocation::Upstream { distance } => plain(0, 0, 0, i64::from(cap(distance))),
        VariantLocation::Downstream { distance } => plain(1, 0, 0, i64::from(cap(distance))),
        VariantLocation::Distal => plain(2, 0, 0, 0),
        VariantLocation::FivePrimeUtr {
            exon_index,
            offset_from_cds_start,
            is_splice_region,
        } => plain(
            3,
            is_splice_region as u32,
            exon_index,
            offset_from_cds_start,
        ),
        VariantLocation::CdsExon {
            exon_index,
            cds_segment_index,
            cds_offset,
            codon_number,
            codon_position,
            is_splice_region,
        } => Row {
            kind: 4,
            mark: is_splice_region as u32,
            index: exon_index as u32,
            segment: cds_segment_index as u32,
            position: codon_position as u32,
            distance: i64::from(cds_offset.0),
            number: codon_number,
        },
        VariantLocation::ThreePrimeUtr {
            exon_index,
            offset_from_cds_end,
            is_splice_region,
        } => plain(5, is_splice_region as u32, exon_index, offset_from_cds_end),
        VariantLocation::SpliceDonor {
            intron_index,
            offset,
        } => plain(6, 0, intron_index, offset as i64),
        VariantLocation::SpliceAcceptor {
            intron_index,
            offset,
        } => plain(7, 0, intron_index, offset as i64),
        VariantLocation::SpliceRegion {
            intron_index,
            side,
            distance,
        } => plain(8, side as u32, intron_index, distance),
        VariantLocation::Intron {
            intron_index,
            distance_to_nearest_exon,
        } => plain(9, 0, intron_index, distance_to_nearest_exon),
        VariantLocation::FrameshiftIntron {
            intron_index,
            distance_to_nearest_exon,
        } => plain(10, 0, intron_index, distance_to_nearest_exon),
        VariantLocation::NonCodingExon {
            exon_index,
            is_splice_region,
        } => plain(11, is_splice_region as u32, exon_index, 0),
        VariantLocation::NonCodingIntron {
            intron_index,
            distance_to_nearest_exon,
        } => plain(12, 0, intron_index, distance_to_nearest_exon),
    }
}

// A place behind the number 0.
#[inline(always)]
pub(crate) fn place_words(row: Row) -> [i64; 8]
    ensures { result ≡ pos 0 ∷ row_words row }
{
    [
        0,
        row.kind as i64,
        row.mark as i64,
        row.index as i64,
        row.segment as i64,
        row.position as i64,
        row.distance,
        row.number as i64,
    ]
}
