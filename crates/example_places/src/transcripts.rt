// The transcripts of the examples, on chromosome 1 from 100 on.
use transcript::{CdsBounds, CdsSegments, Intervals, Strand, Transcript, TranscriptModel};

// Document 01's T1: exons [100,130) and [160,190), CDS [110,170), phases 0 and 1, start complete.
pub const T1: Transcript<'static> = Transcript {
    model: TranscriptModel {
        id: 7,
        chromosome: 1,
        strand: Strand::Plus,
        exon_count: 2,
        tx_start: 100,
        tx_end: 190,
        cds: Some(CdsBounds {
            cds_genomic_start: 110,
            cds_genomic_end: 170,
        }),
        cds_start_complete: true,
    },
    exons: Intervals {
        starts: &[100, 160],
        ends: &[130, 190],
    },
    segments: CdsSegments {
        phases: &[0, 1],
        exon_indexes: &[0, 1],
        bases: Intervals {
            starts: &[110, 160],
            ends: &[130, 170],
        },
    },
    selenocysteine: &[],
};

const NONE: Intervals<'static> = Intervals {
    starts: &[],
    ends: &[],
};

// Introns of 14 bases, 1 base and 13 bases, from 100 to 200, and no CDS.
pub const PLUS: Transcript<'static> = Transcript {
    model: TranscriptModel {
        id: 7,
        chromosome: 1,
        strand: Strand::Plus,
        exon_count: 4,
        tx_start: 100,
        tx_end: 200,
        cds: None,
        cds_start_complete: false,
    },
    exons: Intervals {
        starts: &[100, 128, 141, 163],
        ends: &[114, 140, 150, 200],
    },
    segments: CdsSegments {
        phases: &[],
        exon_indexes: &[],
        bases: NONE,
    },
    selenocysteine: &[],
};

// The same exons on the other strand.
pub(crate) fn minus() -> Transcript<'static> {
    Transcript {
        model: TranscriptModel {
            strand: Strand::Minus,
            ..PLUS.model
        },
        exons: Intervals {
            starts: &[163, 141, 128, 100],
            ends: &[200, 150, 140, 114],
        },
        ..PLUS
    }
}
