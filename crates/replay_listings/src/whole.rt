// Comparing a listing, piece after piece, in a buffer that makes many pieces of it.
use crate::stored::is_next;
use console::buffer;
use listing::first;
use pieces::{ListingFiles, list_piece};
use std::io::Read;

// Compares a piece with as many of the stored bytes that are left, and answers how many are left then: `Err` where it differs.
fn compare_piece(input: &mut impl Read, bytes: &[u8], left: usize) -> Result<usize, usize> {
    let n = bytes.len();
    if left < n {
        return Err(left);
    }
    if is_next(input, bytes) {
        Ok(left - n)
    } else {
        Err(left - n)
    }
}

// The listing of the files, up to the first piece that differs from the stored bytes: how many of these are
// left then, or behind the end.
pub(crate) fn compare_listing(
    input: &mut impl Read,
    files: ListingFiles,
    stored: usize,
) -> Result<(), usize> {
    let mut out = buffer::<4096>();
    let mut cursor = first();
    let mut left = stored;
    loop {
        let Ok(piece) = list_piece(files, cursor, &mut out) else {
            return Err(left);
        };
        left = compare_piece(input, &out[..piece.length], left)?;
        match piece.next {
            Some(next) => cursor = next,
            None => return if left == 0 { Ok(()) } else { Err(left) },
        }
    }
}
