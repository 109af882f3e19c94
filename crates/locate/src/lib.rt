// Where a base lies in a transcript: the answers' types, the index and the questions.
#![tactic(auto)]

mod alone;
mod build;
mod exonic;
mod index;
mod intronic;
mod lengths;
pub mod place;
mod positions;
mod prefix_sums;
mod search;
mod selenocysteine;
mod variant;

pub use index::{index_of, scalars_of};
pub use positions::cdna_position;
pub use prefix_sums::{store_sums, sum_up};
pub use search::Ordered;
pub use selenocysteine::selenocysteine_codons;
pub use variant::locate_variant;

#[derive(Clone, Copy)]
pub enum SpliceSide {
    Donor,
    Acceptor,
}

// Where a base lies in a transcript: the cases and fields of the Rust.
#[derive(Clone, Copy)]
pub enum VariantLocation {
    Upstream {
        distance: u64,
    },
    Downstream {
        distance: u64,
    },
    Distal,
    FivePrimeUtr {
        exon_index: u16,
        offset_from_cds_start: i64,
        is_splice_region: bool,
    },
    CdsExon {
        exon_index: u16,
        cds_segment_index: u16,
        cds_offset: CdsOffset,
        codon_number: u32,
        codon_position: u8,
        is_splice_region: bool,
    },
    ThreePrimeUtr {
        exon_index: u16,
        offset_from_cds_end: i64,
        is_splice_region: bool,
    },
    SpliceDonor {
        intron_index: u16,
        offset: u8,
    },
    SpliceAcceptor {
        intron_index: u16,
        offset: u8,
    },
    SpliceRegion {
        intron_index: u16,
        side: SpliceSide,
        distance: i64,
    },
    Intron {
        intron_index: u16,
        distance_to_nearest_exon: i64,
    },
    FrameshiftIntron {
        intron_index: u16,
        distance_to_nearest_exon: i64,
    },
    NonCodingExon {
        exon_index: u16,
        is_splice_region: bool,
    },
    NonCodingIntron {
        intron_index: u16,
        distance_to_nearest_exon: i64,
    },
}

// An exon or an intron: its index, and its start and end in oriented coordinates. An intron has the index of the exon before it.
#[derive(Clone, Copy)]
pub struct Feature {
    pub index: usize,
    pub start: u64,
    pub end: u64,
}

// Which exon or intron of a transcript holds a base. The Rust's enum, whose third case is an error there: as an Option of two cases it
// would be no plainer to match.
#[derive(Clone, Copy)]
pub enum ExonOrIntron {
    Exon(Feature),
    Intron(Feature),
    Outside,
}

// The two counters that are never read for each other: coding bases from 0 with the pad before them, and exonic bases from 1.
#[derive(Clone, Copy)]
pub struct CdsOffset(pub u32);

#[derive(Clone, Copy)]
pub struct CdnaPosition(pub u32);

// Codon numbers of up to 64 bases, then zeros.
// Fixed memory: no Vec.
#[derive(Clone, Copy)]
pub struct CodonNumbers {
    pub numbers: [u32; 64],
}

// The scalars of an index. Without a CDS the numbers of its exons are 0, where the Rust has None: who reads them has asked before whether
// there are segments, and an Option, asked again, is no plainer.
#[derive(Clone, Copy, Default)]
pub struct IndexScalars {
    pub cds_start_pad: u32,
    pub exon_count: usize,
    pub segment_count: usize,
    pub total_cds_length: u32,
    pub utr5_exonic_len: u32,
    pub cds_start_exon_idx: u16,
    pub cds_end_exon_idx: u16,
    pub has_frameshift_intron: bool,
    pub selenocysteine_count: usize,
}

// What is computed once for a transcript, in arrays of fixed size: nothing allocates, and each is lent on as a slice.
#[derive(Drop)]
pub struct LocateIndex {
    pub scalars: IndexScalars,
    pub cumulative_exons: [u32; 513],
    pub cumulative_cds: [u32; 513],
    pub selenocysteine_codons: [u32; 64],
}
