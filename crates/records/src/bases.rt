// Bases read through a window.
ghost use Rattle.std.specs.Prelude.{◌≡◌};
ghost use Rattle.consequence.specs.Window.{window_of, in_window, base_at};

use super::Window;

// Whether the window holds the coordinate.
pub fn in_window(w: &Window, p: u64) -> bool
    ensures { result ≡ in_window (window_of w.now) p }
{
    w.first <= p && p - w.first < w.bytes.len() as u64
}

// The byte at a coordinate, as it stands.
pub fn base_at(w: &Window, p: u64) -> Option<u8>
    ensures { result ≡ base_at (window_of w.now) p }
{
    consequence::base_at(w, p)
}
