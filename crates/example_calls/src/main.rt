// Document 01's transcript T1 with its window, and its three calls, printed as lines.
#![tactic(auto)]

use consequence::{Call, Window, annotate_snv, by_number};
use console::print;
use lines::write_called;
use transcript::{CdsBounds, CdsSegments, Intervals, Strand, Transcript, TranscriptModel};

// 90 bases from coordinate 100: all A save T at 111 and 167, G at 112 and 128.
const WINDOW: Window<'static> = Window {
    chromosome: 1,
    first: 100,
    bytes: b"\
AAAAAAAAAAATGAAAAAAAAAAAAAAAGAAAAAAAAAAAAAAAA\
AAAAAAAAAAAAAAAAAAAAAATAAAAAAAAAAAAAAAAAAAAAA",
};

// T1: exons [100,130) and [160,190), CDS [110,170), phases 0 and 1, start complete.
const T1: Transcript<'static> = Transcript {
    model: TranscriptModel {
        id: 7,
        chromosome: 1,
        strand: Strand::Plus,
        exon_count: 2,
        tx_start: 100,
        tx_end: 190,
        cds: Some(CdsBounds {
            cds_genomic_start: 110,
            cds_genomic_end: 170,
        }),
        cds_start_complete: true,
    },
    exons: Intervals {
        starts: &[100, 160],
        ends: &[130, 190],
    },
    segments: CdsSegments {
        phases: &[0, 1],
        exon_indexes: &[0, 1],
        bases: Intervals {
            starts: &[110, 160],
            ends: &[130, 170],
        },
    },
    selenocysteine: &[],
};

// The line of the call of that number.
fn show(rt: &impl Print, number: u64, position: u64, ref_base: u8, alt_base: u8) {
    let call = Call {
        chromosome: 1,
        position,
        ref_base,
        alt_base,
    };
    let called = annotate_snv(&WINDOW, call, &T1);
    let mut out = [0u8; 256];
    if let Ok(n) = write_called(&mut out, number, 7, by_number(called)) {
        print(rt, &out[..n]);
    }
}

fn main(rt: HostRuntime) {
    show(&rt, 1, 111, b'T', b'C');
    show(&rt, 2, 129, b'A', b'C');
    show(&rt, 3, 130, b'A', b'G');
}
