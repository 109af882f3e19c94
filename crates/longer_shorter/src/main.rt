// A pair of a shorter and a longer transcript, and the answers of both to the same calls, one below the other: numbers, totals and
// cDNA positions move by what was added, the mark and its term are gained at the two ends, and all else stays. The same of the pair on
// chromosome 25, where ATA reads M, AGA is a stop and TGA is none.
#![tactic(auto)]

use consequence::{Call, Window, annotate_snv, by_number};
use console::print;
use lines::write_called;
use transcript::{CdsBounds, CdsSegments, Intervals, Strand, Transcript, TranscriptModel};

// The chromosome of two transcripts and their ids.
#[derive(Clone, Copy)]
struct Pair {
    chromosome: u16,
    shorter: u32,
    longer: u32,
}

// 90 bases from coordinate 100: all A save T at 111 and 167, G at 112 and 128.
const WINDOW: [u8; 90] = *b"\
AAAAAAAAAAATGAAAAAAAAAAAAAAAGAAAAAAAAAAAAAAAA\
AAAAAAAAAAAAAAAAAAAAAATAAAAAAAAAAAAAAAAAAAAAA";

// A transcript on plus with CDS [110,170), start complete.
fn model(id: u32, chromosome: u16, exon_count: u16, tx_start: u64, tx_end: u64) -> TranscriptModel {
    TranscriptModel {
        id,
        chromosome,
        strand: Strand::Plus,
        exon_count,
        tx_start,
        tx_end,
        cds: Some(CdsBounds {
            cds_genomic_start: 110,
            cds_genomic_end: 170,
        }),
        cds_start_complete: true,
    }
}

// Its segments, of phases 0 and 1, in the exons of these indices.
fn segments(exon_indexes: &[u16]) -> CdsSegments<'_> {
    CdsSegments {
        phases: &[0, 1],
        exon_indexes,
        bases: Intervals {
            starts: &[110, 160],
            ends: &[130, 170],
        },
    }
}

// Document 01's T1, on a chromosome of its own: exons [100,130) and [160,190).
fn shorter(id: u32, chromosome: u16) -> Transcript<'static> {
    Transcript {
        model: model(id, chromosome, 2, 100, 190),
        exons: Intervals {
            starts: &[100, 160],
            ends: &[130, 190],
        },
        segments: segments(&[0, 1]),
        selenocysteine: &[],
    }
}

// The same with exons [50,80) and [215,230) added.
fn longer(id: u32, chromosome: u16) -> Transcript<'static> {
    Transcript {
        model: model(id, chromosome, 4, 50, 230),
        exons: Intervals {
            starts: &[50, 100, 160, 215],
            ends: &[80, 130, 190, 230],
        },
        segments: segments(&[1, 2]),
        selenocysteine: &[],
    }
}

// The line of a transcript's answer to a call on its chromosome.
fn show(rt: &impl Print, number: u64, transcript: &Transcript, call: Call) {
    let window = Window {
        chromosome: call.chromosome,
        first: 100,
        bytes: &WINDOW,
    };
    let called = annotate_snv(&window, call, transcript);
    let mut out = [0u8; 256];
    if let Ok(n) = write_called(&mut out, number, transcript.model.id, by_number(called)) {
        print(rt, &out[..n]);
    }
}

// The two answers to one call.
fn compare(rt: &impl Print, pair: Pair, number: u64, position: u64, ref_base: u8, alt_base: u8) {
    let call = Call {
        chromosome: pair.chromosome,
        position,
        ref_base,
        alt_base,
    };
    show(rt, number, &shorter(pair.shorter, pair.chromosome), call);
    show(rt, number, &longer(pair.longer, pair.chromosome), call);
}

fn main(rt: HostRuntime) {
    let pair = Pair {
        chromosome: 1,
        shorter: 7,
        longer: 8,
    };
    compare(&rt, pair, 1, 101, b'A', b'C');
    compare(&rt, pair, 2, 111, b'T', b'C');
    compare(&rt, pair, 3, 129, b'A', b'C');
    compare(&rt, pair, 4, 143, b'A', b'G');
    compare(&rt, pair, 5, 189, b'A', b'G');
    compare(&rt, pair, 6, 120, b'A', b'A');
    let mitochondrial = Pair {
        chromosome: 25,
        shorter: 27,
        longer: 28,
    };
    compare(&rt, mitochondrial, 7, 112, b'G', b'A');
    compare(&rt, mitochondrial, 8, 117, b'A', b'G');
    compare(&rt, mitochondrial, 9, 168, b'A', b'G');
    compare(&rt, mitochondrial, 10, 189, b'A', b'G');
}
