// Blocks of a list on standard input: a length of four bytes, then so many bytes.
ghost use Rattle.std.specs.Prelude.{◌<◌, ◌≤◌, ◌≡◌, IfSome, None, length};

use crate::numbers::u32_at;
use console::{print, read_full};
use std::io::Read;

// No block: one that cannot be judged, which is written.
fn cut_off(rt: &impl Print) -> Option<usize>
    ensures { result ≡ None }
{
    print(rt, b"a block is not whole or too long\n");
    None
}

// Reads the next block to the front of `block`, and gives its length.
pub(crate) fn next_block(rt: &impl Print, input: &mut impl Read, block: &mut [u8]) -> Option<usize>
    requires { length block.old ≡ 65536 }
    ensures { (IfSome result (λ n. (0 < n) × (n ≤ 65536))) × (length block.new ≡ 65536) }
{
    let mut size = [0u8; 4];
    let got = read_full(input, &mut size);
    if got == 0 {
        return None;
    }
    if got < 4 {
        return cut_off(rt);
    }
    let n = u32_at(&size, 0) as usize;
    if n == 0 || 65536 < n {
        return cut_off(rt);
    }
    if read_full(input, &mut block[..n]) != n {
        return cut_off(rt);
    }
    Some(n)
}
