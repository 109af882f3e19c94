// Whether a codon holds a selenocysteine base.
ghost use Rattle.std.specs.Prelude.{◌≡◌, ◌≤◌, length};
ghost use Rattle.transcript.specs.Orient.{Oriented};
ghost use Rattle.common.specs.Lists.{memb};
ghost use Rattle.common.specs.Stored.{filled};
ghost use Rattle.locate.specs.Index.{selenocysteine_codons};
ghost use Rattle.consequence.specs.Reading.{holds_selenocysteine};

fn stands_in(numbers: &[u32], number: u32) -> bool
    ensures { result ≡ memb number numbers.now }
{
    numbers.iter().any(|n| number == *n)
}

// Whether the number stands among the first `count` codon numbers. Array and count are lent as the index has them: whoever
// lends them would take the part, and prove that the array has it, in each of two places.
pub(crate) fn holds_selenocysteine(codons: &[u32; 64], count: usize, number: u32) -> bool
    requires { (count ≤ 64) × (count ≤ length codons.now) }
    ensures { (t : Oriented)
        → count ≡ length t.selenocysteine
        → codons.now ≡ filled 64 (selenocysteine_codons t)
        → result ≡ holds_selenocysteine t number }
{
    stands_in(&codons[..count], number)
}
