// Names of places.
ghost use Rattle.std.specs.Prelude.{◌≡◌, ◌≤◌, length};
ghost use Rattle.locate.specs.PlaceKind.{place_name};

use locate::VariantLocation;

// The Rust name of a place.
// By match: cases with fields are not cast to a place in a table.
pub fn place_name(place: VariantLocation) -> &'static [u8]
    ensures name { result.now ≡ place_name place }
    ensures upper_bound { length result.now ≤ 16 }
{
    match place {
        VariantLocation::Upstream { .. } => b"Upstream",
        VariantLocation::Downstream { .. } => b"Downstream",
        VariantLocation::Distal => b"Distal",
        VariantLocation::FivePrimeUtr { .. } => b"FivePrimeUtr",
        VariantLocation::CdsExon { .. } => b"CdsExon",
        VariantLocation::ThreePrimeUtr { .. } => b"ThreePrimeUtr",
        VariantLocation::SpliceDonor { .. } => b"SpliceDonor",
        VariantLocation::SpliceAcceptor { .. } => b"SpliceAcceptor",
        VariantLocation::SpliceRegion { .. } => b"SpliceRegion",
        VariantLocation::Intron { .. } => b"Intron",
        VariantLocation::FrameshiftIntron { .. } => b"FrameshiftIntron",
        VariantLocation::NonCodingExon { .. } => b"NonCodingExon",
        VariantLocation::NonCodingIntron { .. } => b"NonCodingIntron",
    }
}
