// The numbers of the calls' lines.
ghost use Rattle.std.specs.Prelude.{◌≡◌};
ghost use Rattle.listing.specs.Pieces.{line_number};

// The number of the line that begins at a byte of the calls.
pub fn line_number(calls: &[u8], at: usize) -> u64
    ensures { result ≡ line_number calls.now at }
{
    let before = &calls[..at.min(calls.len())];
    before.iter().filter(|b| **b == b'\n').count() as u64 + 1
}
