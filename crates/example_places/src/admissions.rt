// Transcripts that are admitted, and one that is refused by each of 1 to 13.
use crate::text::{print, refused};
use crate::transcripts::T1;
use transcript::{CdsBounds, CdsSegments, Intervals, Strand, Transcript, TranscriptModel, admit};

// The line of a transcript.
fn line(rt: &impl Print, x: Transcript) {
    match admit(&x) {
        Ok(()) => print(rt, b"admitted"),
        Err(refusal) => refused(rt, refusal),
    }
    print(rt, b"\n");
}

fn model(rt: &impl Print, model: TranscriptModel) {
    line(rt, Transcript { model, ..T1 });
}

fn segments(rt: &impl Print, segments: CdsSegments) {
    line(rt, Transcript { segments, ..T1 });
}

// T1 with CDS segments of these starts and ends, and these selenocysteine bases.
fn coding(rt: &impl Print, starts: &[u64], ends: &[u64], selenocysteine: &[u64]) {
    let segments = CdsSegments {
        bases: Intervals { starts, ends },
        ..T1.segments
    };
    line(
        rt,
        Transcript {
            segments,
            selenocysteine,
            ..T1
        },
    );
}

fn phases(rt: &impl Print, phases: &[u8]) {
    segments(
        rt,
        CdsSegments {
            phases,
            ..T1.segments
        },
    );
}

fn exon_indexes(rt: &impl Print, exon_indexes: &[u16]) {
    segments(
        rt,
        CdsSegments {
            exon_indexes,
            ..T1.segments
        },
    );
}

fn cds(rt: &impl Print, cds: Option<CdsBounds>) {
    model(rt, TranscriptModel { cds, ..T1.model });
}

fn bounds(rt: &impl Print, cds_genomic_start: u64, cds_genomic_end: u64) {
    cds(
        rt,
        Some(CdsBounds {
            cds_genomic_start,
            cds_genomic_end,
        }),
    );
}

// T1 on the other strand, with a first phase of 2 and a selenocysteine base.
fn minus() -> Transcript<'static> {
    Transcript {
        model: TranscriptModel {
            strand: Strand::Minus,
            cds_start_complete: false,
            ..T1.model
        },
        exons: Intervals {
            starts: &[160, 100],
            ends: &[190, 130],
        },
        segments: CdsSegments {
            phases: &[2, 1],
            exon_indexes: &[0, 1],
            bases: Intervals {
                starts: &[160, 110],
                ends: &[170, 130],
            },
        },
        selenocysteine: &[169],
    }
}

pub(crate) fn show(rt: &impl Print) {
    coding(rt, &[110, 160], &[130, 170], &[111]);
    coding(rt, &[110, 160], &[130], &[]);
    coding(rt, &[110, 170], &[130, 170], &[]);
    model(
        rt,
        TranscriptModel {
            strand: Strand::Minus,
            ..T1.model
        },
    );
    model(
        rt,
        TranscriptModel {
            tx_end: 191,
            ..T1.model
        },
    );
    cds(rt, None);
    phases(rt, &[3, 1]);
    phases(rt, &[1, 1]);
    exon_indexes(rt, &[0, 2]);
    exon_indexes(rt, &[0, 0]);
    bounds(rt, 99, 170);
    bounds(rt, 110, 160);
    coding(rt, &[110, 160], &[130, 171], &[]);
    coding(rt, &[110, 160], &[130, 170], &[130]);
    line(rt, minus());
}
