// Signed numbers put into a lent buffer.
ghost use Rattle.std.specs.Prelude.{◌+◌, ◌-◌, ◌≤◌, ◌<◌, ◌≡◌, ◌∷◌, ◌++◌, length, leb, pos, replicate};
ghost use Rattle.std.proofs.lemmas.List.Edits.{sets};
ghost use Rattle.words.specs.code.Near.{capped};
ghost use Rattle.words.specs.code.Put.{put_at};

// A distance in 32 bits: the largest number of these where it is more.
pub(crate) fn cap(d: u64) -> u32
    ensures { result ≡ capped d }
{
    d.min(4_294_967_295) as u32
}

// Whether n numbers fit from a position on.
pub(crate) fn has_room(len: usize, at: usize, n: usize) -> bool
    ensures { result ≡ leb (at + n) len }
{
    n <= len && at <= len - n
}

// Numbers from a position on. Inlined, so that they are written there alone. Buffer and position stand apart, since the
// public functions above promise of any position of any buffer, one behind its end too, where it has no part to lend.
#[tactic(auto, using(crate::proofs::Putting::put_part))]
#[inline(always)]
pub(crate) fn put_all(out: &mut [i64], at: usize, words: &[i64])
    requires { at + length words.now ≤ length out.old }
    ensures { out.new ≡ sets out.old at words.now }
{
    out[at..at + words.len()].copy_from_slice(words);
}

// Numbers from a position on, and others behind them.
#[inline(always)]
pub(crate) fn put_both(out: &mut [i64], at: usize, first: &[i64], second: &[i64])
    requires { at + (length first.now + length second.now) ≤ length out.old }
    ensures { out.new ≡ sets out.old at (first.now ++ second.now) }
{
    put_all(out, at, first);
    put_all(out, at + first.len(), second);
}

// Numbers from a position on. Where they do not fit nothing is stored.
#[inline(always)]
pub(crate) fn put_fitting(out: &mut [i64], at: usize, words: &[i64])
    ensures { out.new ≡ put_at out.old at words.now }
{
    if has_room(out.len(), at, words.len()) {
        put_all(out, at, words);
    }
}

// The number of a refusal with zeros behind it.
#[inline(always)]
pub(crate) fn refusal_words<const N: usize>(n: u8) -> [i64; N]
    requires { 0 < N }
    ensures { result ≡ pos n ∷ replicate (N - 1) (pos 0) }
{
    let mut words = [0; N];
    words[0] = i64::from(n);
    words
}
