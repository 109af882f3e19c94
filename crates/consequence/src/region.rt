// What an answer takes from a place.
ghost use Rattle.std.specs.Prelude.{◌≡◌};
ghost use Rattle.consequence.specs.Region.{frameshift_term, region_of, with_mark};

use super::{CodingBase, CodingPlace};
use locate::VariantLocation;
use terms::{Consequence, TermSet};

// The index of the exon or intron, its term and its splice mark. A coding base has its codon in place of a term. `Distal` is a case and
// no refusal of a Result: a place is in one region, and only a call is refused there.
#[derive(Clone, Copy)]
pub enum Region {
    Distal,
    Flank {
        term: Consequence,
    },
    Intron {
        index: u16,
        term: Consequence,
        mark: bool,
    },
    Exon {
        index: u16,
        term: Consequence,
        mark: bool,
    },
    Coding(CodingPlace),
}

// The term of a short intron.
fn frameshift_term(coding: bool) -> Consequence
    ensures { result ≡ frameshift_term coding }
{
    if coding {
        return Consequence::CodingSequenceVariant;
    }
    Consequence::NonCodingTranscriptVariant
}

// The splice mark adds its term.
pub fn with_mark(terms: TermSet, mark: bool) -> TermSet
    ensures { result.0 ≡ with_mark mark terms.0 }
{
    terms.with_if(mark, Consequence::SpliceRegionVariant)
}

// The region of a place in a transcript with or without a CDS.
pub(crate) fn region_of(place: VariantLocation, coding: bool) -> Region
    ensures { result ≡ region_of coding place }
{
    match place {
        VariantLocation::Upstream { .. } => Region::Flank {
            term: Consequence::UpstreamGeneVariant,
        },
        VariantLocation::Downstream { .. } => Region::Flank {
            term: Consequence::DownstreamGeneVariant,
        },
        VariantLocation::Distal => Region::Distal,
        VariantLocation::FivePrimeUtr {
            exon_index,
            is_splice_region,
            ..
        } => Region::Exon {
            index: exon_index,
            term: Consequence::FivePrimeUtrVariant,
            mark: is_splice_region,
        },
        VariantLocation::CdsExon {
            exon_index,
            cds_segment_index,
            cds_offset,
            codon_number,
            codon_position,
            is_splice_region,
        } => Region::Coding(CodingPlace {
            base: CodingBase {
                offset: cds_offset,
                number: codon_number,
                position: codon_position,
            },
            exon: exon_index,
            segment: cds_segment_index,
            mark: is_splice_region,
        }),
        VariantLocation::ThreePrimeUtr {
            exon_index,
            is_splice_region,
            ..
        } => Region::Exon {
            index: exon_index,
            term: Consequence::ThreePrimeUtrVariant,
            mark: is_splice_region,
        },
        VariantLocation::SpliceDonor { intron_index, .. } => Region::Intron {
            index: intron_index,
            term: Consequence::SpliceDonorVariant,
            mark: false,
        },
        VariantLocation::SpliceAcceptor { intron_index, .. } => Region::Intron {
            index: intron_index,
            term: Consequence::SpliceAcceptorVariant,
            mark: false,
        },
        VariantLocation::SpliceRegion { intron_index, .. } => Region::Intron {
            index: intron_index,
            term: Consequence::IntronVariant,
            mark: true,
        },
        VariantLocation::Intron { intron_index, .. } => Region::Intron {
            index: intron_index,
            term: Consequence::IntronVariant,
            mark: false,
        },
        VariantLocation::FrameshiftIntron { intron_index, .. } => Region::Intron {
            index: intron_index,
            term: frameshift_term(coding),
            mark: false,
        },
        VariantLocation::NonCodingExon {
            exon_index,
            is_splice_region,
        } => Region::Exon {
            index: exon_index,
            term: Consequence::NonCodingTranscriptExonVariant,
            mark: is_splice_region,
        },
        VariantLocation::NonCodingIntron { intron_index, .. } => Region::Intron {
            index: intron_index,
            term: Consequence::IntronVariant,
            mark: false,
        },
    }
}
