// Holds the port against the Rust's answers, a list of blocks on standard input: writes a line for each answer that differs, then
// for each kind of block how many answers were compared and how many differ. oracle/README.md has the list's layout.
#![tactic(auto)]

mod answers;
mod asking;
mod blocks;
mod calling;
mod columns;
mod counts;
mod index;
mod layout;
mod numbers;
mod places;
mod placing;
mod sums;
mod transcripts;

use answers::judge;
use blocks::next_block;
use console::{buffer, print};
use counts::{kind_of, print_totals, raise};
use std::io::Read;

// Reads up to the list's end; the bound on the blocks, which no list reaches, is one on the counts.
fn judge_all(rt: &impl Print, input: &mut impl Read) {
    let mut block = buffer::<65536>();
    let mut compared = [0u64; 4];
    let mut different = [0u64; 4];
    for blocks in 0..1_000_000_000 {
        let Some(n) = next_block(rt, input, &mut block) else {
            break;
        };
        let Some(kind) = kind_of(block[0]) else {
            print(rt, b"a block is of an unknown kind\n");
            continue;
        };
        let c = judge(rt, kind, &block[1..n]);
        raise(&mut compared, kind, c.compared, blocks);
        raise(&mut different, kind, c.different, blocks);
    }
    print_totals(rt, compared, different);
}

fn main(rt: HostRuntime) {
    judge_all(&rt, &mut rt.stdin());
}
