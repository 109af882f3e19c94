// Lists of an index, compared with those of a block.
use crate::numbers::{u16_at, u32_at};

// Whether the sums are those listed.
pub(crate) fn same_sums(listed: &[u8], sums: &[u32]) -> bool {
    sums.iter()
        .zip(listed.chunks_exact(4))
        .all(|(sum, bytes)| u64::from(*sum) == u32_at(bytes, 0))
}

// The segment of exon i, 65535 where it has none: the exons from `first` to `last` have the segments in order.
fn segment_of(coding: bool, first: u64, last: u64, i: u64) -> u64 {
    if coding && first <= i && i <= last {
        i - first
    } else {
        65535
    }
}

// Whether the segments of the exons are those listed.
pub(crate) fn same_segments(listed: &[u8], coding: bool, first: u64, last: u64) -> bool {
    listed.chunks_exact(2).enumerate().all(|(i, bytes)| segment_of(coding, first, last, i as u64)
        == u16_at(bytes, 0))
}

// Whether one of the codon numbers is n.
fn is_in(numbers: &[u32], n: u64) -> bool {
    numbers.iter().any(|number| u64::from(*number) == n)
}

// Whether one of the listed numbers is n.
fn is_listed(listed: &[u8], n: u64) -> bool {
    listed.chunks_exact(4).any(|bytes| u32_at(bytes, 0) == n)
}

// Whether each listed codon number is one of those given: the list has each once and in order.
pub(crate) fn all_in(listed: &[u8], numbers: &[u32]) -> bool {
    listed
        .chunks_exact(4)
        .all(|bytes| is_in(numbers, u32_at(bytes, 0)))
}

// Whether each of the codon numbers is listed.
pub(crate) fn all_listed(listed: &[u8], numbers: &[u32]) -> bool {
    numbers
        .iter()
        .all(|number| is_listed(listed, u64::from(*number)))
}
