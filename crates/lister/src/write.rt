// Writing. What cannot be written is said on standard error.
ghost use Rattle.std.specs.Prelude.{◌-◌, ◌≤◌, length, IfOk};

use console::print;
use std::io;

// One write, of the bytes from `at` on.
fn write_at(to: &impl Print, bytes: &[u8], at: usize) -> io::Result<usize>
    requires { at ≤ length bytes.now }
    ensures { IfOk result (λ n. n ≤ length bytes.now - at) }
{
    to.write_some(&bytes[at..])
}

// A line on what failed, under the name of the file.
pub(crate) fn say_failed(errors: &impl Print, name: &[u8], error: io::Error) {
    print(errors, name);
    print(errors, b": ");
    let _ = errors.println(error);
}

// A write that takes none leaves no error to name.
fn say_none_taken(errors: &impl Print, name: &[u8]) {
    print(errors, name);
    print(errors, b": no byte was taken\n");
}

// Where bytes are written, under which name, and where what fails is said.
#[derive(Drop)]
pub(crate) struct Output<'a, T: Print, E: Print> {
    pub to: &'a T,
    pub errors: &'a E,
    pub name: &'a [u8],
}

impl<'a, T: Print, E: Print> Output<'a, T, E> {
    // Writes the bytes. Answers whether all are written: a write that fails or takes none is the last, and is said under the name. Like
    // `read_to_end` in shape alone.
    pub(crate) fn write_all(&self, bytes: &[u8]) -> bool {
        let mut done = 0;
        while done < bytes.len() {
            match write_at(self.to, bytes, done) {
                Err(e) => {
                    say_failed(self.errors, self.name, e);
                    return false;
                }
                Ok(n) => {
                    if n == 0 {
                        say_none_taken(self.errors, self.name);
                        return false;
                    }
                    done += n;
                }
            }
        }
        true
    }
}
