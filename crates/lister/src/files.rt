// Reading files. What cannot be read is said on standard error, and reads as empty.
ghost use Rattle.std.specs.Prelude.{◌-◌, ◌≤◌, length, IfOk};
ghost use Rattle.console.specs.Counts.{IsPrefixLen};

use crate::write::say_failed;
use std::io::Read;
use std::rt::Files;
use std::{fs, io, str};

// One read, to `into` from `at` on.
fn read_at(from: &mut impl Read, into: &mut [u8], at: usize) -> io::Result<usize>
    requires { at ≤ length into.old }
    ensures { IfOk result (λ n. n ≤ length into.old - at) }
{
    from.read(&mut into[at..])
}

// The bytes of an open file at the start of `into`, as many as fit. Each read is judged by itself: 0 bytes are the end, after which
// nothing more is read; after a failure no byte that came before it counts.
pub(crate) fn read_to_end(
    from: &mut impl Read,
    errors: &impl Print,
    name: &[u8],
    into: &mut [u8],
) -> usize
    ensures { IsPrefixLen result into.new }
{
    let mut filled = 0;
    while filled < into.len() {
        match read_at(from, into, filled) {
            Err(e) => {
                say_failed(errors, name, e);
                return 0;
            }
            Ok(n) => {
                if n == 0 {
                    return filled;
                }
                filled += n;
            }
        }
    }
    filled
}

// Opens a file for reading. No path that is not UTF-8 is opened.
fn open<R: Files>(rt: &R, path: &[u8]) -> io::Result<R::File> {
    match str::from_utf8(path) {
        Ok(path) => fs::open(rt, path),
        Err(_) => Err(io::Error::from(io::ErrorKind::InvalidFilename)),
    }
}

// The bytes of a file at the start of `into`, as many as fit.
pub(crate) fn read_file(rt: &impl Files, errors: &impl Print, path: &[u8], into: &mut [u8]) -> usize
    ensures { IsPrefixLen result into.new }
{
    match open(rt, path) {
        Err(e) => {
            say_failed(errors, path, e);
            0
        }
        Ok(mut file) => read_to_end(&mut file, errors, path, into),
    }
}
