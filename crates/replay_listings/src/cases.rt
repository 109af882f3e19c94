// One case of the list.
ghost use Rattle.std.specs.Prelude.{◌<◌, IsNone, IfSome};

use crate::stored::{read_part, skip};
use crate::whole::compare_listing;
use common::little::u32_at;
use console::{buffer, print, print_decimal};
use pieces::ListingFiles;
use std::io::Read;

// What became of a case: its bytes where they are the same, and whether it differs.
#[derive(Drop)]
pub(crate) struct Outcome {
    pub bytes: u64,
    pub different: bool,
}

fn report(rt: &impl Print, what: &[u8], number: u64) {
    print(rt, what);
    print_decimal(rt, number);
}

// A case that is not there as a whole.
pub(crate) fn cut_off(rt: &impl Print, number: u64) -> Option<Outcome>
    ensures { IsNone result }
{
    report(rt, b"not whole or too long: case ", number);
    print(rt, b"\n");
    None
}

// The number of four bytes at i.
fn size_at(sizes: &[u8; 16], i: usize) -> usize
    ensures { result < 4294967296 }
{
    u32_at(sizes, i) as usize
}

// Reads a case behind its four lengths, lists it and compares; none where it is not whole. The rooms have a byte more than the longest
// deck, window file or calls of a case.
pub(crate) fn replay_case(
    rt: &impl Print,
    input: &mut impl Read,
    number: u64,
    sizes: &[u8; 16],
) -> Option<Outcome>
    ensures { IfSome result (λ o. o.bytes < 4294967296) }
{
    let mut deck = buffer::<65553>();
    let mut window = buffer::<65553>();
    let mut calls = buffer::<65553>();
    let d = read_part(input, &mut deck, size_at(sizes, 0));
    let w = read_part(input, &mut window, size_at(sizes, 4));
    let c = read_part(input, &mut calls, size_at(sizes, 8));
    if d != size_at(sizes, 0) || w != size_at(sizes, 4) || c != size_at(sizes, 8) {
        return cut_off(rt, number);
    }
    let stored = size_at(sizes, 12);
    let files = ListingFiles {
        deck: &deck[..d],
        window: &window[..w],
        calls: &calls[..c],
    };
    let compared = compare_listing(input, files, stored);
    let Err(left) = compared else {
        return Some(Outcome {
            bytes: stored as u64,
            different: false,
        });
    };
    report(rt, b"different: case ", number);
    report(rt, b", in the last bytes, of which there are ", left as u64);
    print(rt, b"\n");
    skip(input, left);
    Some(Outcome {
        bytes: 0,
        different: true,
    })
}
