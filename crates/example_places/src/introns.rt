// Introns of at most 13 bases: the one that holds an end of an interval, and the splice windows that reach a base beside it.
use crate::text::{decimal, interval, print, refused, strand_word};
use crate::transcripts::{PLUS, minus};
use footprint::{SpliceSpill, exonic_splice_spill, frameshift_intron_endpoint};
use transcript::Transcript;

// The line's first words: what is asked, the strand and the interval. Transcript, start and end are what footprint is asked with.
fn asked(rt: &impl Print, question: &[u8], x: &Transcript, start: u64, end: u64) {
    print(rt, question);
    strand_word(rt, x.model.strand);
    interval(rt, start, end);
}

// The line of the short intron that holds an end of [start, end).
fn short_intron(rt: &impl Print, x: &Transcript, start: u64, end: u64) {
    asked(rt, b"short intron", x, start, end);
    match frameshift_intron_endpoint(1, start, end, x) {
        Ok(Some(i)) => decimal(rt, u64::from(i)),
        Ok(None) => print(rt, b"none"),
        Err(refusal) => refused(rt, refusal),
    }
    print(rt, b"\n");
}

fn show_windows(rt: &impl Print, hit: SpliceSpill) {
    let name: &[u8] = match (hit.donor, hit.acceptor) {
        (true, true) => b"both",
        (true, false) => b"donor",
        (false, true) => b"acceptor",
        (false, false) => b"none",
    };
    print(rt, name);
}

// The line of the splice windows of short introns that [start, end) hits.
fn spill(rt: &impl Print, x: &Transcript, start: u64, end: u64) {
    asked(rt, b"spill", x, start, end);
    match exonic_splice_spill(1, start, end, x) {
        Ok(hit) => show_windows(rt, hit),
        Err(refusal) => refused(rt, refusal),
    }
    print(rt, b"\n");
}

pub(crate) fn show(rt: &impl Print) {
    for (start, end) in [
        (114, 128),
        (140, 142),
        (130, 141),
        (139, 142),
        (140, 163),
        (151, 151),
        (150, 150),
    ] {
        short_intron(rt, &PLUS, start, end);
    }
    short_intron(rt, &minus(), 151, 151);
    for (start, end) in [(141, 142), (139, 140), (140, 141), (139, 142), (149, 150)] {
        spill(rt, &PLUS, start, end);
    }
    for (start, end) in [(141, 142), (139, 140)] {
        spill(rt, &minus(), start, end);
    }
}
