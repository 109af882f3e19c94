// The place of an exon base, from counts of exonic bases.
ghost use Rattle.std.specs.Prelude.{◌≡◌, ◌+◌, ◌-◌, ◌≤◌, ◌<◌};
ghost use Rattle.transcript.specs.Limits.{top, max_exons};
ghost use Rattle.transcript.specs.Orient.{interval};
ghost use Rattle.locate.specs.Place.{is_exonic_splice_region};
ghost use Rattle.locate.specs.code.Exonic.{exonic_of, Countable, head_of};
ghost use Rattle.locate.specs.code.Features.{bases_of};

use super::{CdsOffset, Feature, VariantLocation};

// The splice mark of the base p of an exon, of n exons.
pub(crate) fn is_exonic_splice_region(n: usize, exon: Feature, p: u64) -> bool
    requires { (exon.index < n) × (n ≤ max_exons) × (exon.start ≤ p) × (p < exon.end) × (exon.end ≤ top) }
    ensures { result ≡ is_exonic_splice_region n exon.index (bases_of exon) p }
{
    if exon.index + 1 < n {
        if exon.end - p <= 3 {
            return true;
        }
    }
    if 0 < exon.index {
        return p - exon.start + 1 <= 3;
    }
    false
}

// The first exon index, 0 where there is none: no Option, as in `IndexScalars`.
pub(crate) fn first_index(indexes: &[u16]) -> u16
    ensures { result ≡ head_of indexes.now }
{
    indexes.first().copied().unwrap_or(0)
}

// Exonic bases before a base, before the CDS and before the end of the CDS; the pad and the first coding exon.
#[derive(Clone, Copy)]
pub(crate) struct Counts {
    pub(crate) before: u32,
    pub(crate) utr5: u32,
    pub(crate) coding_end: u32,
    pub(crate) pad: u32,
    pub(crate) first: u16,
}

// The place of the base p of exon i of a coding transcript: of the 5'UTR, the 3'UTR or the CDS.
pub(crate) fn exonic_place(
    counts: Counts,
    cds_start: u64,
    cds_end: u64,
    p: u64,
    i: u16,
    mark: bool,
) -> VariantLocation
    requires { Countable counts (interval cds_start cds_end) p i }
    ensures { result ≡ exonic_of counts (interval cds_start cds_end) p i mark }
{
    if p < cds_start {
        let left = (counts.utr5 - counts.before) as u64;
        return VariantLocation::FivePrimeUtr {
            exon_index: i,
            offset_from_cds_start: -(left as i64),
            is_splice_region: mark,
        };
    }
    if cds_end <= p {
        let past = (counts.before + 1 - counts.coding_end) as u64;
        return VariantLocation::ThreePrimeUtr {
            exon_index: i,
            offset_from_cds_end: past as i64,
            is_splice_region: mark,
        };
    }
    let offset = counts.pad + (counts.before - counts.utr5);
    let segment = i - counts.first;
    VariantLocation::CdsExon {
        exon_index: i,
        cds_segment_index: segment,
        cds_offset: CdsOffset(offset),
        codon_number: offset / 3 + 1,
        codon_position: (offset % 3) as u8,
        is_splice_region: mark,
    }
}
