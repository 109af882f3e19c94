// The names of the Ontology's terms, by severity rank.
#![tactic(auto)]

ghost use Rattle.std.specs.Prelude.{◌+◌, ◌<◌, ◌^◌, ◌≡◌, length, get_or};
ghost use Rattle.common.specs.Stored.{Pushed};
ghost use Rattle.names.specs.Names.{term_name};

use common::text::push_bytes;

// The names of the ranks 1 to 28.
static TERM_NAMES: [&[u8]; 28] = [
    b"transcript_ablation",
    b"transcript_amplification",
    b"splice_acceptor_variant",
    b"splice_donor_variant",
    b"stop_gained",
    b"frameshift_variant",
    b"stop_lost",
    b"start_lost",
    b"inframe_insertion",
    b"inframe_deletion",
    b"missense_variant",
    b"protein_altering_variant",
    b"splice_region_variant",
    b"start_retained_variant",
    b"stop_retained_variant",
    b"incomplete_terminal_codon_variant",
    b"synonymous_variant",
    b"coding_sequence_variant",
    b"5_prime_UTR_variant",
    b"3_prime_UTR_variant",
    b"non_coding_transcript_exon_variant",
    b"intron_variant",
    b"non_coding_transcript_variant",
    b"upstream_gene_variant",
    b"downstream_gene_variant",
    b"feature_truncation",
    b"feature_elongation",
    b"intergenic_variant",
];

// The name of the term of a rank; a number that is no rank has none.
pub fn term_name(rank: u32) -> &'static [u8]
    ensures { result.now ≡ term_name rank }
{
    if rank == 0 || rank > 28 {
        b""
    } else {
        TERM_NAMES[rank as usize - 1]
    }
}

// The name of the term of a rank, put into a lent buffer from a position on; the position behind it.
#[tactic(auto, using(crate::proofs::Names::name_short))]
pub fn push_name(out: &mut [u8], at: usize, rank: u32) -> usize
    requires { at + 64 < 2 ^ 64 }
    ensures { Pushed out.old at (term_name rank) out.new result }
{
    push_bytes(out, at, term_name(rank))
}

// The length of that name; 0 for a number that is no rank.
pub fn name_length(rank: u32) -> usize
    ensures { result ≡ length (term_name rank) }
{
    term_name(rank).len()
}

// The byte at i of that name; 0 past its end.
pub fn name_byte(rank: u32, i: usize) -> u8
    ensures { result ≡ get_or (term_name rank) i 0 }
{
    term_name(rank).get(i).copied().unwrap_or(0)
}
