// The places that document 01 marks, its two insertions, a short intron, and a first phase of 1.
use crate::flanks::insertion;
use crate::shown::show_place;
use crate::text::{decimal, print, refused};
use crate::transcripts::T1;
use locate::locate_variant;
use transcript::question::QUERY_LIMIT;
use transcript::{CdsBounds, CdsSegments, Intervals, Transcript, TranscriptModel};

// The line of the base at p.
fn place(rt: &impl Print, x: &Transcript, p: u64) {
    if QUERY_LIMIT <= p {
        return;
    }
    decimal(rt, p);
    print(rt, b" ");
    match locate_variant(1, p, p + 1, x) {
        Ok(found) => show_place(rt, found),
        Err(refusal) => refused(rt, refusal),
    }
    print(rt, b"\n");
}

// T1 with an intron of 13 bases.
fn short() -> Transcript<'static> {
    Transcript {
        model: TranscriptModel {
            tx_end: 160,
            cds: Some(CdsBounds {
                cds_genomic_start: 110,
                cds_genomic_end: 150,
            }),
            ..T1.model
        },
        exons: Intervals {
            starts: &[100, 143],
            ends: &[130, 160],
        },
        segments: CdsSegments {
            bases: Intervals {
                starts: &[110, 143],
                ends: &[130, 150],
            },
            ..T1.segments
        },
        ..T1
    }
}

// T1 with a first phase of 1.
fn padded() -> Transcript<'static> {
    Transcript {
        model: TranscriptModel {
            cds_start_complete: false,
            ..T1.model
        },
        segments: CdsSegments {
            phases: &[1, 1],
            ..T1.segments
        },
        ..T1
    }
}

pub(crate) fn show(rt: &impl Print) {
    for p in [
        99, 109, 110, 126, 127, 131, 132, 142, 143, 158, 170, 5189, 5190,
    ] {
        place(rt, &T1, p);
    }
    for p in [5189, 5190] {
        insertion(rt, &T1, p);
    }
    place(rt, &short(), 136);
    place(rt, &padded(), 110);
}
