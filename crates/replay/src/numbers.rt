// Little-endian numbers in lent bytes, widened. What lies past their end is 0.
ghost use Rattle.std.specs.Prelude.{◌≤◌, ◌<◌};

use common::little;

// The bytes from i on.
pub(crate) fn from(b: &[u8], i: usize) -> &[u8] {
    b.get(i..).unwrap_or(&[])
}

pub(crate) fn byte_at(b: &[u8], i: usize) -> u64
    ensures { result < 256 }
{
    b.get(i).copied().map_or(0, u64::from)
}

pub(crate) fn u16_at(b: &[u8], i: usize) -> u64
    ensures { result < 65536 }
{
    u64::from(little::u16_at(b, i))
}

pub(crate) fn u32_at(b: &[u8], i: usize) -> u64
    ensures { result < 4294967296 }
{
    u64::from(little::u32_at(b, i))
}

// The number at i, or `most` where it is larger.
pub(crate) fn count_at(b: &[u8], i: usize, most: u64) -> u64
    ensures { result ≤ most }
{
    u32_at(b, i).min(most)
}
