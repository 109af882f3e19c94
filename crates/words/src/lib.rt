// What is handed over the boundary: scalars in structs of C's layout become a model and a call, and an answer is put into a lent
// buffer as signed numbers.
#![tactic(auto)]

mod call;
mod called;
mod coding;
mod columns;
mod flanks;
mod lengths;
mod located;
mod model;
mod row;
mod words;

pub use call::call_of;
pub use called::{put_called, put_refusal};
pub use coding::put_coding;
pub use flanks::put_interval;
pub use lengths::calls_fit;
pub use located::put_located;
pub use model::model_of;

// A transcript's scalars. Where `has_cds` is false the CDS bounds are not read.
#[repr(C)]
#[derive(Clone, Copy)]
pub struct VareffectModel {
    pub id: u32,
    pub chromosome: u16,
    pub exon_count: u16,
    pub tx_start: u64,
    pub tx_end: u64,
    pub cds_start: u64,
    pub cds_end: u64,
    pub minus: bool,
    pub has_cds: bool,
    pub start_complete: bool,
}

// Where the lent bases begin.
#[repr(C)]
#[derive(Clone, Copy)]
pub struct VareffectWindow {
    pub chromosome: u16,
    pub first: u64,
}

// A single-nucleotide variant.
#[repr(C)]
#[derive(Clone, Copy)]
pub struct VareffectCall {
    pub chromosome: u16,
    pub ref_base: u8,
    pub alt_base: u8,
    pub position: u64,
}

// Calls lent as four lists: callers in C lend them so.
#[derive(Clone, Copy)]
pub struct CallLists<'a> {
    pub chromosomes: &'a [u16],
    pub positions: &'a [u64],
    pub refs: &'a [u8],
    pub alts: &'a [u8],
}

// The number of a refusal, 0 for none, and what was asked for.
#[repr(C)]
#[derive(Clone, Copy)]
pub struct VareffectOutcome {
    pub number: u64,
    pub value: u64,
}

// How many numbers an answer has: of a place, of a call.
pub const PLACE_WORDS: usize = 8;

pub const CALL_WORDS: usize = 20;
