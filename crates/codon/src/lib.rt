// Base numbers, the genetic codes, and the letters of a codon and of a codon with one base replaced.
#![tactic(auto)]

mod altered;
mod bases;
mod display;
mod table;
mod translate;

ghost use Rattle.std.specs.Prelude.{◌≤◌, length};

pub use altered::{AllLetters, altered_letters, build_alt_codon, letters_of};
pub use bases::{base_number, complement, is_base};
pub use display::format_amino_acids;
pub use table::{translate_codon, translate_reference_codon};
pub use translate::{translate_altered_codon, translate_codons};

// NCBI's tables 1 and 2.
#[derive(Clone, Copy, PartialEq, Eq, Debug)]
pub enum GeneticCode {
    Standard,
    VertebrateMitochondrial,
}

// The bases of one codon in coding order: three, or the one or two of an unfinished last codon. A base that is not there is 0.
// Fixed memory: three fields and how many are there, no Vec.
#[derive(Clone, Copy, PartialEq, Eq, Debug)]
pub struct Codon {
    pub len: u8,
    pub first: u8,
    pub second: u8,
    pub third: u8,
}

// The letters of each codon with each place replaced by each base, lent.
#[derive(Clone, Copy)]
pub struct CodeLetters<'a> {
    pub bytes: &'a [u8],
    pub ghost whole: { 768 ≤ length bytes.now },
}

// The letters of a reference codon and of that codon with one base replaced.
#[derive(Clone, Copy, PartialEq, Eq, Debug)]
pub struct Letters {
    pub reference: u8,
    pub altered: u8,
}

// What the codons column shows: the reference and the altered codon, and the place of the changed base.
#[derive(Clone, Copy, PartialEq, Eq, Debug)]
pub struct Codons {
    pub reference: Codon,
    pub altered: Codon,
    pub place: u8,
}

// What the letters column shows: one letter, or the reference and the altered letter.
#[derive(Clone, Copy, PartialEq, Eq, Debug)]
pub enum AminoAcids {
    One(u8),
    Change(u8, u8),
}
