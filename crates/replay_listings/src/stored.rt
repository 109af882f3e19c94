// Stored bytes on standard input.
ghost use Rattle.std.specs.Prelude.{◌≤◌};
ghost use Rattle.console.specs.Counts.{IsPrefixLen};

use console::{buffer, read_full};
use std::io::Read;

// Reads the next n bytes to the front of `into`, and gives how many it read: none where they do not fit, which no caller tells apart
// from an input that has ended.
pub(crate) fn read_part(input: &mut impl Read, into: &mut [u8], n: usize) -> usize
    ensures prefix_len { IsPrefixLen result into.new }
    ensures upper_bound { result ≤ n }
{
    if into.len() < n {
        return 0;
    }
    read_full(input, &mut into[..n])
}

// Whether the next bytes are those of the line, which has at most 4,096; as many are read.
pub(crate) fn is_next(input: &mut impl Read, line: &[u8]) -> bool {
    let mut held = buffer::<4096>();
    let n = read_part(input, &mut held, line.len());
    line == &held[..n]
}

// Reads n bytes away, in pieces.
pub(crate) fn skip(input: &mut impl Read, n: usize) {
    let mut piece = buffer::<65536>();
    let mut left = n;
    while left > 0 {
        let got = read_part(input, &mut piece, left.min(65536));
        if got == 0 {
            break;
        }
        left -= got;
    }
}
