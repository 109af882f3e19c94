// Bytes on standard output, and bytes of an input, by buffers that the caller lends: nothing is allocated.
#![tactic(auto)]

ghost use Rattle.std.specs.Prelude.{◌≡◌, length};
ghost use Rattle.console.specs.Counts.{IsPrefixLen};

use std::io::Read;

// N zeros.
pub fn buffer<const N: usize>() -> [u8; N]
    ensures { N ≡ length result }
{
    [0; N]
}

// Prints the bytes. Answers whether all are printed: nothing is printed behind a write that failed or took none.
pub fn print(to: &impl Print, bytes: &[u8]) -> bool {
    to.write_all(bytes).is_ok()
}

// Prints the digits of a number, and answers the same.
pub fn print_decimal(to: &impl Print, n: u64) -> bool {
    to.print(n).is_ok()
}

// Reads until the buffer is full, the input ends or a read fails, and gives how many bytes it put at the start of the buffer: std's
// `read_exact` does not tell how many came before the end.
pub fn read_full(from: &mut impl Read, into: &mut [u8]) -> usize
    ensures { IsPrefixLen result into.new }
{
    let mut done = 0;
    while done < into.len() {
        let n = from.read(&mut into[done..]).unwrap_or(0);
        if n == 0 {
            break;
        }
        done += n;
    }
    done
}
