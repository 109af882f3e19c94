// Bases read through the window.
ghost use Rattle.std.specs.Prelude.{◌≡◌};
ghost use Rattle.consequence.specs.Window.{window_of, base_at, coding_byte, coding_fetched};

use super::Window;
use codon::complement;
use transcript::Strand;

// The byte at a coordinate, as it stands.
#[tactic(auto, unfolding(crate::specs::Window::base_at))]
pub fn base_at(window: &Window, p: u64) -> Option<u8>
    ensures { result ≡ base_at (window_of window.now) p }
{
    let i = p.checked_sub(window.first)?;
    window.bytes.get(i as usize).copied()
}

// A byte as the coding strand has it.
// The rule of a strand, which no method of std has.
pub(crate) fn coding_byte(strand: Strand, b: u8) -> u8
    ensures { result ≡ coding_byte strand b }
{
    match strand {
        Strand::Plus => b,
        Strand::Minus => complement(b),
    }
}

// The byte at a coordinate, as the coding strand has it.
pub(crate) fn coding_base_at(strand: Strand, window: &Window, p: u64) -> Option<u8>
    ensures { result ≡ coding_fetched strand (base_at (window_of window.now) p) }
{
    let b = base_at(window, p)?;
    Some(coding_byte(strand, b))
}
