// Words and numbers on standard output.
use common::refusal::Refusal;
use console::print_decimal;
use transcript::Strand;

pub(crate) fn print(rt: &impl Print, text: &[u8]) {
    console::print(rt, text);
}

pub(crate) fn decimal(rt: &impl Print, n: u64) {
    print_decimal(rt, n);
}

pub(crate) fn number(rt: &impl Print, n: u64) {
    print(rt, b" ");
    decimal(rt, n);
}

// A number with its sign, + for 0.
pub(crate) fn signed(rt: &impl Print, n: i64) {
    print(rt, if n < 0 { b" -" } else { b" +" });
    decimal(rt, n.unsigned_abs());
}

pub(crate) fn refused(rt: &impl Print, refusal: Refusal) {
    print(rt, b"refused");
    number(rt, u64::from(u8::from(refusal)));
}

pub(crate) fn strand_word(rt: &impl Print, strand: Strand) {
    match strand {
        Strand::Plus => print(rt, b" plus "),
        Strand::Minus => print(rt, b" minus "),
    }
}

// An interval as start-end.
pub(crate) fn interval(rt: &impl Print, start: u64, end: u64) {
    decimal(rt, start);
    print(rt, b"-");
    decimal(rt, end);
    print(rt, b" ");
}
