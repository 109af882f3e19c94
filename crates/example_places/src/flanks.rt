// Where an interval lies beside a transcript.
use crate::shown::show_flank;
use crate::text::{decimal, interval, number, print, strand_word};
use crate::transcripts::{T1, minus};
use footprint::classify_flank;
use transcript::Transcript;

// The line of an insertion at p.
pub(crate) fn insertion(rt: &impl Print, x: &Transcript, p: u64) {
    print(rt, b"insertion at");
    number(rt, p);
    print(rt, b" ");
    show_flank(rt, classify_flank(1, p, p, x));
    print(rt, b"\n");
}

// The line of a flank, with the interval as chromosome:start-end.
fn line(rt: &impl Print, x: &Transcript, chromosome: u16, start: u64, end: u64) {
    print(rt, b"flank");
    strand_word(rt, x.model.strand);
    decimal(rt, u64::from(chromosome));
    print(rt, b":");
    interval(rt, start, end);
    show_flank(rt, classify_flank(chromosome, start, end, x));
    print(rt, b"\n");
}

pub(crate) fn show(rt: &impl Print) {
    line(rt, &T1, 1, 5189, 5190);
    line(rt, &T1, 1, 100, 100);
    line(rt, &T1, 1, 99, 100);
    line(rt, &T1, 1, 189, 190);
    line(rt, &T1, 2, 190, 189);
    line(rt, &minus(), 1, 99, 100);
}
