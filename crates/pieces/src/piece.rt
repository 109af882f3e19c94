// A piece of a listing: as many whole lines as fit into a lent buffer.
ghost use Rattle.std.specs.Prelude.{◌≡◌, [], ◌∷◌, length};
ghost use Rattle.common.specs.Refusal.{number};
ghost use Rattle.lines.specs.Line.{refusal_line};
ghost use Rattle.listing.specs.Pieces.{pack, piece_by, piece_of, piece_to};
ghost use Rattle.pieces.specs.code.Opening.{opened_as};
ghost use Rattle.pieces.specs.code.Files.{opened_files, packed_files};
ghost use Rattle.pieces.specs.code.Filling.{filled_as};

use crate::fill::line_filled;
use crate::line::fill_lines;
use crate::opened::OpenedDeck;
use crate::{ListingFiles, TableIndex};
use common::refusal::Refusal;
use deck::{DeckRefusal, Table};
use lines::line::write_refusal;
use listing::{Cursor, Piece};

// What was put; refused where not even the first line fits.
fn piece_of(put: Piece) -> Result<Piece, Refusal>
    ensures { result ≡ piece_by put.length put.next }
{
    if put.length == 0 && put.next.is_some() {
        return Err(Refusal::LineLength);
    }
    Ok(put)
}

// The line of a refused deck, window file or call file.
fn fill_refusal(refused: DeckRefusal, cursor: Cursor, out: &mut [u8]) -> Piece
    ensures { let text = refusal_line 0 refused.«record» (number refused.refusal) in
        let p = pack (length out.old) (record { before = cursor; text = text } ∷ []) in
        (result ≡ filled_as p) × (out.new ≡ piece_to out.old p) }
{
    let written = write_refusal(
        out,
        0,
        u64::from(refused.record),
        u64::from(u8::from(refused.refusal)),
    );
    line_filled(written, cursor)
}

// The piece of an opened listing from a cursor on.
pub fn next_piece(
    files: ListingFiles,
    opening: Result<(), DeckRefusal>,
    table: &Table,
    index: &TableIndex,
    cursor: Cursor,
    out: &mut [u8],
) -> Result<Piece, Refusal>
    requires { opened_as opening table.now index.now ≡ opened_files files }
    ensures { let p = packed_files files.entry cursor out.old in
        (result ≡ piece_of p) × (out.new ≡ piece_to out.old p) }
{
    match opening {
        Err(refused) => piece_of(fill_refusal(refused, cursor, out)),
        Ok(()) => piece_of(fill_lines(files, OpenedDeck { table, index }, cursor, out)),
    }
}
