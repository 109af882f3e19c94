// Holds whole listings against stored lines. Standard input has case after case: the lengths of the deck, the window file, the calls
// and the lines, four bytes each, then these bytes (tests/README.md). Writes of each case that differs where, then how many listings
// were compared, how many of their bytes are the same, and how many listings differ.
#![tactic(auto)]

mod cases;
mod stored;
mod whole;

ghost use Rattle.std.specs.Prelude.{◌<◌, IfSome};

use cases::{Outcome, cut_off, replay_case};
use console::{print, print_decimal, read_full};
use std::io::Read;

fn print_totals(rt: &impl Print, cases: u64, bytes: u64, different: u64) {
    print_decimal(rt, cases);
    print(rt, b" listings of ");
    print_decimal(rt, bytes);
    print(rt, b" bytes, ");
    print_decimal(rt, different);
    print(rt, b" different\n");
}

// The next case, which has the number given; none where the list ends.
fn next_case(rt: &impl Print, input: &mut impl Read, number: u64) -> Option<Outcome>
    ensures { IfSome result (λ o. o.bytes < 4294967296) }
{
    let mut sizes = [0u8; 16];
    let got = read_full(input, &mut sizes);
    if got == 0 {
        return None;
    }
    if got < 16 {
        return cut_off(rt, number);
    }
    replay_case(rt, input, number, &sizes)
}

// Goes up to the list's end; the bound on the cases, which no list reaches, is one on the counts.
fn replay_all(rt: &impl Print, input: &mut impl Read) {
    let mut cases: u64 = 0;
    let mut bytes: u64 = 0;
    let mut different: u64 = 0;
    for number in 1..=1_000_000_000 {
        let Some(outcome) = next_case(rt, input, number) else {
            break;
        };
        cases = number;
        bytes += outcome.bytes;
        different += u64::from(outcome.different);
    }
    print_totals(rt, cases, bytes, different);
}

fn main(rt: HostRuntime) {
    replay_all(&rt, &mut rt.stdin());
}
