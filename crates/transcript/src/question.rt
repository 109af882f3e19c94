// What every question shares: oriented bases, and the tests of 15.
ghost use Rattle.std.specs.Prelude.{◌≡◌, ◌||◌, eqb};
ghost use Rattle.transcript.specs.Orient.{orient_base};
ghost use Rattle.transcript.specs.Question.{bad_interval};

use super::Strand;

// The largest start or end of a query.
pub const QUERY_LIMIT: u64 = 1_000_010_000;

// A base in oriented coordinates.
pub fn base_of(strand: Strand, p: u64) -> u64
    ensures { result ≡ orient_base strand p }
{
    match strand {
        Strand::Plus => p,
        Strand::Minus => 1_999_999_999u64.saturating_sub(p),
    }
}

// Start or end over the limit, or end below start.
pub fn bad_interval(s: u64, e: u64) -> bool
    ensures { result ≡ bad_interval s e }
{
    QUERY_LIMIT < s || QUERY_LIMIT < e || e < s
}

// The same of a question that may not be empty.
pub fn bad_place(s: u64, e: u64) -> bool
    ensures { result ≡ (bad_interval s e || eqb s e) }
{
    bad_interval(s, e) || s == e
}
