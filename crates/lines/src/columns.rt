// The columns of an answered call, put into a lent buffer. Buffer and position apart, as in common.
ghost use Rattle.std.specs.Prelude.{◌≡◌, [], ◌∷◌, ◌+◌, ◌≤◌, ◌<◌, ◌^◌};
ghost use Rattle.common.specs.Text.{byte};
ghost use Rattle.common.specs.Stored.{Pushed};
ghost use Rattle.codon.specs.Display.{shown, format_codon, format_codons, format_amino_acids};
ghost use Rattle.names.specs.Names.{term_name};
ghost use Rattle.consequence.specs.Answer.{cdna_count};
ghost use Rattle.lines.specs.Line.{numbered, counted, term_list};

use codon::{AminoAcids, Codon, Codons};
use common::text::{push, push_decimal};
use consequence::{Numbered, cdna_count};
use locate::CdnaPosition;
use names::push_name;
use terms::TermSet;

// k/n, `-` for absent.
pub(crate) fn push_numbered(out: &mut [u8], at: usize, n: Option<Numbered>) -> usize
    requires { at + 41 < 2 ^ 64 }
    ensures pushed { Pushed out.old at (numbered n) out.new result }
    ensures upper_bound { result ≤ at + 41 }
{
    match n {
        None => push(out, at, b'-'),
        Some(n) => {
            let slash = push_decimal(out, at, n.number as u64);
            let after = push(out, slash, b'/');
            push_decimal(out, after, n.total as u64)
        }
    }
}

#[tactic(auto, using(common::proofs::Digits::digits_length))]
pub(crate) fn push_counted(out: &mut [u8], at: usize, n: Option<u32>) -> usize
    requires { at + 20 < 2 ^ 64 }
    ensures pushed { Pushed out.old at (counted n) out.new result }
    ensures upper_bound { result ≤ at + 20 }
{
    match n {
        None => push(out, at, b'-'),
        Some(k) => push_decimal(out, at, k as u64),
    }
}

pub(crate) fn push_cdna(out: &mut [u8], at: usize, n: Option<CdnaPosition>) -> usize
    requires { at + 20 < 2 ^ 64 }
    ensures pushed { Pushed out.old at (counted (cdna_count n)) out.new result }
    ensures upper_bound { result ≤ at + 20 }
{
    push_counted(out, at, cdna_count(n))
}

// The base at place i, as it stands where it is the changed one.
#[tactic(auto, unfolding(codon::specs::Display::lowercase))]
fn push_shown(out: &mut [u8], at: usize, place: u8, i: u8, b: u8) -> usize
    requires { at + 1 < 2 ^ 64 }
    ensures { Pushed out.old at (shown place i b ∷ []) out.new result }
{
    push(
        out,
        at,
        if i == place {
            b
        } else {
            b.to_ascii_lowercase()
        },
    )
}

fn push_codon(out: &mut [u8], at: usize, c: Codon, place: u8) -> usize
    requires { at + 3 < 2 ^ 64 }
    ensures { Pushed out.old at (format_codon c place) out.new result }
{
    if c.len == 0 {
        return at;
    }
    let second = push_shown(out, at, place, 0, c.first);
    if c.len == 1 {
        return second;
    }
    let third = push_shown(out, second, place, 1, c.second);
    if c.len == 2 {
        return third;
    }
    push_shown(out, third, place, 2, c.third)
}

// Reference codon, slash, altered codon.
pub(crate) fn push_codons(out: &mut [u8], at: usize, c: Option<Codons>) -> usize
    requires { at + 7 < 2 ^ 64 }
    ensures pushed { Pushed out.old at (format_codons c) out.new result }
    ensures upper_bound { result ≤ at + 7 }
{
    match c {
        None => push(out, at, b'-'),
        Some(c) => {
            let slash = push_codon(out, at, c.reference, c.place);
            let after = push(out, slash, b'/');
            push_codon(out, after, c.altered, c.place)
        }
    }
}

#[tactic(auto, using(common::proofs::Stored::pushed_on), unfolding(codon::specs::Display::format_amino_acids))]
pub(crate) fn push_letters(out: &mut [u8], at: usize, a: Option<AminoAcids>) -> usize
    requires { at + 3 < 2 ^ 64 }
    ensures pushed { Pushed out.old at (format_amino_acids a) out.new result }
    ensures upper_bound { result ≤ at + 3 }
{
    match a {
        None => push(out, at, b'-'),
        Some(AminoAcids::One(x)) => push(out, at, x),
        Some(AminoAcids::Change(x, y)) => {
            let slash = push(out, at, x);
            let after = push(out, slash, b'/');
            push(out, after, y)
        }
    }
}

// The name of one more term, behind a comma.
fn push_next(out: &mut [u8], at: usize, rank: u32) -> usize
    requires { at + 65 < 2 ^ 64 }
    ensures { Pushed out.old at (byte "," ∷ term_name rank) out.new result }
{
    let to = push(out, at, b',');
    push_name(out, to, rank)
}

// The names of the terms from the lowest bit on, with commas between, `-` for none.
pub(crate) fn push_terms(out: &mut [u8], at: usize, set: TermSet) -> usize
    requires { at + 2048 < 2 ^ 64 }
    ensures pushed { Pushed out.old at (term_list set.0) out.new result }
    ensures upper_bound { result ≤ at + 1280 }
{
    let mut ranks = set.ranks();
    let Some(first) = ranks.next() else {
        return push(out, at, b'-');
    };
    let mut to = push_name(out, at, first);
    for rank in ranks {
        to = push_next(out, to, rank);
    }
    to
}
