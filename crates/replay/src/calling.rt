// A call of a single base.
use crate::columns::same_answer;
use crate::numbers::{byte_at, count_at, from, u16_at, u32_at};
use consequence::{Call, Called, Window, annotate_snv};
use transcript::Transcript;

fn call_of(b: &[u8], chromosome: u16) -> Call {
    Call {
        chromosome,
        position: u32_at(b, 0),
        ref_base: byte_at(b, 4) as u8,
        alt_base: byte_at(b, 5) as u8,
    }
}

fn same_called(b: &[u8], called: Called) -> bool {
    let number = byte_at(b, 8);
    match called {
        Ok(a) => number == 0 && same_answer(from(b, 12), a),
        Err(refusal) => u64::from(u8::from(refusal)) == number,
    }
}

// The window, behind its chromosome, its first coordinate and its length.
fn window_of(b: &[u8]) -> Option<Window> {
    let length = count_at(b, 8, 65536) as usize;
    Some(Window {
        chromosome: u16_at(b, 0) as u16,
        first: u32_at(b, 4),
        bytes: b.get(12..12 + length)?,
    })
}

// Whether the call has the answer that stands behind it.
pub(crate) fn is_same(b: &[u8], window: &[u8], transcript: &Transcript) -> bool {
    let Some(window) = window_of(window) else {
        return false;
    };
    let called = annotate_snv(&window, call_of(b, transcript.model.chromosome), transcript);
    same_called(b, called)
}
