// Lines put into a lent buffer, and what is left.
ghost use Rattle.std.specs.Prelude.{◌≡◌, [], ◌∷◌, length, drop};
ghost use Rattle.listing.specs.Entries.{malformed};
ghost use Rattle.listing.specs.Pieces.{call_steps, pack, piece_to};
ghost use Rattle.pieces.specs.code.Filling.{filled_as, line_filled};

use common::refusal::Refusal;
use lines::line::write_refusal;
use listing::{Cursor, Piece};

// One line that was put, or is left.
pub(crate) fn line_filled(written: Result<usize, Refusal>, cursor: Cursor) -> Piece
    ensures { result ≡ line_filled written cursor }
{
    match written {
        Ok(length) => Piece { length, next: None },
        Err(_) => Piece {
            length: 0,
            next: Some(cursor),
        },
    }
}

// The line of a malformed line of the calls, unless it is behind the cursor.
pub(crate) fn fill_malformed(number: u64, cursor: Cursor, out: &mut [u8]) -> Piece
    ensures { let es = drop cursor.entry (malformed number ∷ []) in
        let p = pack (length out.old) (call_steps cursor.at cursor.entry es) in
        (result ≡ filled_as p) × (out.new ≡ piece_to out.old p) }
{
    if cursor.entry != 0 {
        return Piece {
            length: 0,
            next: None,
        };
    }
    let written = write_refusal(out, number, 0, Refusal::CallLine as u64);
    line_filled(written, cursor)
}
