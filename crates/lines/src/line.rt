// Printed lines, put into a lent buffer.
ghost use Rattle.std.specs.Prelude.{◌≡◌, [], ◌∷◌, ◌++◌, ◌+◌, ◌≤◌, ◌<◌, ◌^◌};
ghost use Rattle.common.specs.Text.{decimal};
ghost use Rattle.common.specs.Stored.{Pushed};
ghost use Rattle.lines.specs.Line.{refusal_line, write_answer, written_to};

use common::refusal::Refusal;
use common::text::{push, push_decimal};

// A number and the byte behind it.
pub(crate) fn push_number(out: &mut [u8], at: usize, n: u64, end: u8) -> usize
    requires { at + 21 < 2 ^ 64 }
    ensures pushed { Pushed out.old at (decimal n ++ (end ∷ [])) out.new result }
    ensures upper_bound { result ≤ at + 21 }
{
    let to = push_decimal(out, at, n);
    push(out, to, end)
}

// The line of a refusal at the buffer's start, as far as that reaches; the line's length.
fn push_refusal(out: &mut [u8], a: u64, b: u64, c: u64) -> usize
    ensures pushed { Pushed out.old 0 (refusal_line a b c) out.new result }
    ensures upper_bound { result ≤ 63 }
{
    let second = push_number(out, 0, a, 32);
    let third = push_number(out, second, b, 32);
    push_number(out, third, c, 10)
}

// The line of a refusal and its length, or `LineLength` where it does not fit. No such line has over 63 bytes; where it might not fit,
// it is measured on an empty buffer first.
// Apart from write_answer: one function of both would take the text as a closure, with its bound.
pub fn write_refusal(out: &mut [u8], a: u64, b: u64, c: u64) -> Result<usize, Refusal>
    ensures { let line = refusal_line a b c in
        (result ≡ write_answer out.old line) × (out.new ≡ written_to out.old line) }
{
    if out.len() < 63 && out.len() < push_refusal(&mut [], a, b, c) {
        return Err(Refusal::LineLength);
    }
    Ok(push_refusal(out, a, b, c))
}
