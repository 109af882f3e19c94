// How severe a term is.
ghost use Rattle.std.specs.Prelude.{◌≡◌};
ghost use Rattle.terms.specs.Severity.{severity_rank};
ghost use Rattle.terms.specs.Terms.{only};

use crate::Consequence;

impl Consequence {
    // 1 for the most severe.
    // The discriminant: no derive writes From.
    pub fn severity_rank(self) -> u32
        ensures { result ≡ severity_rank self }
    {
        self as u32
    }

    // The bit of a set that is the term's.
    pub(crate) fn bit(self) -> u32
        ensures { result ≡ only self }
    {
        1 << (self.severity_rank() - 1)
    }
}
