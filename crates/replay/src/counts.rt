// Answers compared and answers that differ, by kind of block.
ghost use Rattle.std.specs.Prelude.{ℕ, ◌+◌, ◌*◌, ◌≤◌, ◌≡◌, length, get_or};

use console::{print, print_decimal};

// What the answers of a block are to.
#[derive(Clone, Copy, PartialEq, Eq)]
pub(crate) enum Kind {
    Transcripts,
    Places,
    Intervals,
    Calls,
}

#[derive(Drop)]
pub(crate) struct Counts {
    pub compared: u64,
    pub different: u64,
}

// The kind of the block whose first byte this is.
// The bytes of the stored list.
pub(crate) fn kind_of(byte: u8) -> Option<Kind> {
    match byte {
        0 => Some(Kind::Transcripts),
        1 => Some(Kind::Places),
        2 => Some(Kind::Intervals),
        3 => Some(Kind::Calls),
        _ => None,
    }
}

// Adds n to the count of the kind; `blocks` were counted before.
pub(crate) fn raise(counts: &mut [u64; 4], kind: Kind, n: u64, blocks: u64)
    requires long { length counts.old ≡ 4 }
    requires few { n ≤ 4096 }
    requires few_blocks { blocks ≤ 1000000000 }
    requires counted { (k : ℕ) → get_or counts.old k 0 ≤ 4096 * blocks }
    ensures long { length counts.new ≡ 4 }
    ensures counted { (k : ℕ) → get_or counts.new k 0 ≤ 4096 * (blocks + 1) }
{
    counts[kind as usize] += n;
}

// What the answers of a kind are called.
// The words that are printed; no derive prints these.
fn name_of(kind: Kind) -> &'static [u8] {
    match kind {
        Kind::Transcripts => b"transcripts",
        Kind::Places => b"places",
        Kind::Intervals => b"intervals",
        Kind::Calls => b"calls",
    }
}

pub(crate) fn print_totals(rt: &impl Print, compared: [u64; 4], different: [u64; 4]) {
    for kind in [
        Kind::Transcripts,
        Kind::Places,
        Kind::Intervals,
        Kind::Calls,
    ] {
        print_decimal(rt, compared[kind as usize]);
        print(rt, b" ");
        print(rt, name_of(kind));
        print(rt, b", ");
        print_decimal(rt, different[kind as usize]);
        print(rt, b" different\n");
    }
}

// Writes what is wrong with an answer: its kind, its transcript and, but for an index, a number of its own.
pub(crate) fn report(rt: &impl Print, what: &[u8], kind: Kind, id: u32, number: u64) {
    print(rt, what);
    print(rt, b": ");
    print(rt, name_of(kind));
    print(rt, b" ");
    print_decimal(rt, u64::from(id));
    if kind != Kind::Transcripts {
        print(rt, b" ");
        print_decimal(rt, number);
    }
    print(rt, b"\n");
}
