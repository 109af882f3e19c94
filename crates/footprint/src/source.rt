// The source's lengths.
ghost use Rattle.std.specs.Prelude.{◌≡◌};
ghost use Rattle.footprint.specs.Ranges.{source_ranges};

use super::Ranges;

// 5000 bases of flank, 8 bases from the donor, 17 from the acceptor.
pub fn source_ranges() -> Ranges
    ensures { result ≡ source_ranges }
{
    Ranges {
        flank: 5000,
        donor: 8,
        acceptor: 17,
    }
}
