// Holds the names of the crate terms against those of the Rust, which are on standard input: a line for each term in the order of
// the ranks, with the rank, a space and the name. Writes each rank whose line is another here, and how many there are.
#![tactic(auto)]

ghost use Rattle.std.specs.Prelude.{◌≤◌, ◌<◌, length};

use console::{buffer, print, print_decimal, read_full};
use names::{name_byte, name_length};

// The byte at i of the last digit of a rank, a space, its name and a newline.
fn tail_byte(rank: u32, i: usize) -> u8 {
    if i == 0 {
        return b'0' + (rank % 10) as u8;
    }
    if i == 1 {
        return b' ';
    }
    if i - 2 == name_length(rank) {
        return b'\n';
    }
    name_byte(rank, i - 2)
}

// The byte at i of the line of a rank below 100.
fn line_byte(rank: u32, i: usize) -> u8 {
    if rank < 10 {
        return tail_byte(rank, i);
    }
    if i == 0 {
        return b'0' + (rank / 10 % 10) as u8;
    }
    tail_byte(rank, i - 1)
}

// Whether the bytes begin the line of a rank.
fn begins_line(row: &[u8], rank: u32) -> bool {
    for (i, b) in row.iter().enumerate() {
        if *b != line_byte(rank, i) {
            return false;
        }
    }
    true
}

// Whether the row is the line of a rank that has a name: its newline ends it.
fn is_line(row: &[u8], rank: u32) -> bool {
    row.ends_with(b"\n") && name_length(rank) != 0 && begins_line(row, rank)
}

fn report(rt: &impl Print, what: &[u8], rank: u32) {
    print(rt, what);
    print_decimal(rt, rank as u64);
    print(rt, b"\n");
}

// Whether the row is not the line of the rank, which is then written.
fn row_differs(rt: &impl Print, row: &[u8], rank: u32) -> bool {
    let differs = !is_line(row, rank);
    if differs {
        report(rt, b"different: rank ", rank);
    }
    differs
}

// Whether a name of the rank is here, for which no row was left. The rank is then written.
fn row_lacks(rt: &impl Print, rank: u32) -> bool {
    let lacks = name_length(rank) != 0;
    if lacks {
        report(rt, b"no row: rank ", rank);
    }
    lacks
}

// How long the first row is, with the newline that ends it.
fn row_length(text: &[u8]) -> usize
    requires { 0 < length text.now }
    ensures { (0 < result) × (result ≤ length text.now) }
{
    match text.iter().position(|b| *b == b'\n') {
        Some(k) => k + 1,
        None => text.len(),
    }
}

// Compares row after row with the line of the next rank, and writes the counts. A `for` over `split_inclusive` was tried: it is not proved.
fn compare(rt: &impl Print, text: &[u8]) {
    let mut rest = text;
    let mut rank: u32 = 1;
    let mut differ: u64 = 0;
    while rank < 99 && !rest.is_empty() {
        let (row, more) = rest.split_at(row_length(rest));
        differ += u64::from(row_differs(rt, row, rank));
        rank += 1;
        rest = more;
    }
    differ += u64::from(row_lacks(rt, rank));
    print_decimal(rt, rank as u64 - 1);
    print(rt, b" terms, ");
    print_decimal(rt, differ);
    print(rt, b" differ\n");
}

fn main(rt: HostRuntime) {
    let mut text = buffer::<4096>();
    let n = read_full(&mut rt.stdin(), &mut text);
    compare(&rt, &text[..n]);
}
