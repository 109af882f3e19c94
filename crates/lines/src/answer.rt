// The line of an answered call.
ghost use Rattle.std.specs.Prelude.{◌≡◌, ◌+◌, ◌≤◌, ◌<◌, ◌^◌};
ghost use Rattle.common.specs.Stored.{Pushed};
ghost use Rattle.lines.specs.Line.{answer_line, write_answer, written_to};
ghost use Rattle.lines.specs.code.Columns.{front_columns, number_columns, back_columns};

use crate::columns::{
    push_cdna, push_codons, push_counted, push_letters, push_numbered, push_terms,
};
use crate::line::push_number;
use crate::places::place_name;
use common::refusal::Refusal;
use common::text::{push, push_bytes};
use consequence::ConsequenceResult;
use locate::VariantLocation;

// Line number, id, 0 and place, a space behind each. Number and id are no struct: each is printed once, in a column of its own.
fn push_front(out: &mut [u8], number: u64, id: u64, place: VariantLocation) -> usize
    ensures pushed { Pushed out.old 0 (front_columns number id place) out.new result }
    ensures upper_bound { result ≤ 100 }
{
    let a = push_number(out, 0, number, 32);
    let b = push_number(out, a, id, 32);
    let c = push_number(out, b, 0, 32);
    let d = push_bytes(out, c, place_name(place));
    push(out, d, 32)
}

// Exon, intron, CDS position, cDNA position and codon number, a space behind each.
fn push_numbers(out: &mut [u8], at: usize, x: ConsequenceResult) -> usize
    requires { at + 160 < 2 ^ 64 }
    ensures pushed { Pushed out.old at (number_columns x) out.new result }
    ensures upper_bound { result ≤ at + 160 }
{
    let exon = x.exon;
    let intron = x.intron;
    let cds = x.cds_position;
    let cdna = x.cdna_position;
    let protein = x.protein_start;
    let a = push_numbered(out, at, exon);
    let b = push(out, a, 32);
    let c = push_numbered(out, b, intron);
    let d = push(out, c, 32);
    let e = push_counted(out, d, cds);
    let f = push(out, e, 32);
    let g = push_cdna(out, f, cdna);
    let h = push(out, g, 32);
    let i = push_counted(out, h, protein);
    push(out, i, 32)
}

// Codons, letters and terms, with the newline.
fn push_back(out: &mut [u8], at: usize, x: ConsequenceResult) -> usize
    requires { at + 2100 < 2 ^ 64 }
    ensures pushed { Pushed out.old at (back_columns x) out.new result }
    ensures upper_bound { result ≤ at + 1293 }
{
    let codons = x.codons;
    let letters = x.amino_acids;
    let set = x.consequences;
    let a = push_codons(out, at, codons);
    let b = push(out, a, 32);
    let c = push_letters(out, b, letters);
    let d = push(out, c, 32);
    let e = push_terms(out, d, set);
    push(out, e, 10)
}

// The line of an answered call at the buffer's start, as far as that reaches; the line's length.
fn push_answer(out: &mut [u8], number: u64, id: u64, x: ConsequenceResult) -> usize
    ensures pushed { Pushed out.old 0 (answer_line number id x) out.new result }
    ensures upper_bound { result ≤ 1553 }
{
    let a = push_front(out, number, id, x.location);
    let b = push_numbers(out, a, x);
    push_back(out, b, x)
}

// The line of an answered call and its length, or `LineLength` where it does not fit. No line has over 1553 bytes; where it might not
// fit, it is measured on an empty buffer first.
pub fn write_answer(
    out: &mut [u8],
    number: u64,
    id: u64,
    x: ConsequenceResult,
) -> Result<usize, Refusal>
    ensures { let line = answer_line number id x in
        (result ≡ write_answer out.old line) × (out.new ≡ written_to out.old line) }
{
    if out.len() < 1553 && out.len() < push_answer(&mut [], number, id, x) {
        return Err(Refusal::LineLength);
    }
    Ok(push_answer(out, number, id, x))
}
