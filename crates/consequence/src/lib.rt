// The single-base call: its types and its questions.
#![tactic(auto)]

ghost use Rattle.std.specs.Prelude.{◌≡◌};
ghost use Rattle.codon.specs.code.Letters.{LentLetters};
ghost use Rattle.transcript.specs.Transcript.{transcript_of};
ghost use Rattle.consequence.specs.Call.{call_table};
ghost use Rattle.consequence.specs.Called.{by_number};

mod admitted;
mod answer;
mod bases;
mod cdna;
mod cds_codon;
mod code;
mod coding;
mod columns;
mod exonic;
mod letters;
mod place;
mod placed;
mod reading;
mod refusal;
mod region;
mod segment;
mod selenocysteine;
mod snv;
mod spill;
mod summed;

pub use admitted::annotate_admitted;
pub use bases::base_at;
pub use cdna::cdna_count;
pub use cds_codon::read_cds_codon;
pub use code::call_letters;
use codon::{AminoAcids, CodeLetters, Codons};
pub use columns::CodonColumns;
use common::refusal::Refusal;
use locate::{CdnaPosition, CdsOffset, VariantLocation};
pub use placed::annotate_placed;
pub use refusal::judge_opening;
pub use region::with_mark;
pub use snv::annotate_snv;
pub use spill::spill_at;
pub use summed::annotate_summed;
use terms::TermSet;
use transcript::Transcript;

// A chromosome, the coordinate of its first base, and lent bytes, taken as they stand.
#[derive(Clone, Copy)]
pub struct Window<'a> {
    pub chromosome: u16,
    pub first: u64,
    pub bytes: &'a [u8],
}

#[derive(Clone, Copy)]
pub struct Call {
    pub chromosome: u16,
    pub position: u64,
    pub ref_base: u8,
    pub alt_base: u8,
}

// A transcript with the letters of its genetic code.
#[derive(Clone, Copy)]
pub struct CodedTranscript<'a> {
    pub letters: CodeLetters<'a>,
    pub transcript: &'a Transcript<'a>,
    pub ghost read: { LentLetters (call_table (transcript_of transcript.now)) letters },
}

// A coding base: its padded offset, the number of its codon and its place in it.
#[derive(Clone, Copy)]
pub struct CodingBase {
    pub offset: CdsOffset,
    pub number: u32,
    pub position: u8,
}

// The same in its exon and segment, with the splice mark: what CdsExon says.
#[derive(Clone, Copy)]
pub struct CodingPlace {
    pub base: CodingBase,
    pub exon: u16,
    pub segment: u16,
    pub mark: bool,
}

// An exon or intron number k of n.
#[derive(Clone, Copy, PartialEq, Eq, Debug)]
pub struct Numbered {
    pub number: u16,
    pub total: u16,
}

// The whole answer to a call; positions and numbers count from 1.
#[derive(Clone, Copy)]
pub struct ConsequenceResult {
    pub location: VariantLocation,
    pub exon: Option<Numbered>,
    pub intron: Option<Numbered>,
    pub cds_position: Option<u32>,
    pub cdna_position: Option<CdnaPosition>,
    pub protein_start: Option<u32>,
    pub codons: Option<Codons>,
    pub amino_acids: Option<AminoAcids>,
    pub consequences: TermSet,
}

// The answer to a call, or its refusal.
pub type Called = Result<ConsequenceResult, Refusal>;

// The answer, or the refusal's number: lines and rows are made of any number.
#[inline(always)]
pub fn by_number(called: Called) -> Result<ConsequenceResult, u8>
    ensures { result ≡ by_number called }
{
    match called {
        Ok(answer) => Ok(answer),
        Err(refusal) => Err(u8::from(refusal)),
    }
}
