// The Sequence Ontology's terms by severity, and sets of terms.
#![tactic(auto)]

mod coding;
mod ranks;
mod set;
mod severity;

pub use coding::{coding_term, spill_terms};
pub use ranks::Ranks;

// The Ontology's terms, most severe first: the names of the Rust, with their severity ranks 1 to 28.
#[derive(Clone, Copy, PartialEq, Eq, Debug)]
pub enum Consequence {
    TranscriptAblation = 1,
    TranscriptAmplification,
    SpliceAcceptorVariant,
    SpliceDonorVariant,
    StopGained,
    FrameshiftVariant,
    StopLost,
    StartLost,
    InframeInsertion,
    InframeDeletion,
    MissenseVariant,
    ProteinAlteringVariant,
    SpliceRegionVariant,
    StartRetainedVariant,
    StopRetainedVariant,
    IncompleteTerminalCodonVariant,
    SynonymousVariant,
    CodingSequenceVariant,
    FivePrimeUtrVariant,
    ThreePrimeUtrVariant,
    NonCodingTranscriptExonVariant,
    IntronVariant,
    NonCodingTranscriptVariant,
    UpstreamGeneVariant,
    DownstreamGeneVariant,
    FeatureTruncation,
    FeatureElongation,
    IntergenicVariant,
}

// A set of terms: bit (severity rank - 1) for each.
#[derive(Clone, Copy, PartialEq, Eq, Debug)]
pub struct TermSet(pub u32);
