// A piece of a listing that is opened for it: its columns are owned here.
ghost use Rattle.std.specs.Prelude.{◌≡◌};
ghost use Rattle.listing.specs.Pieces.{piece_of, piece_to};
ghost use Rattle.pieces.specs.code.Files.{packed_files};

use crate::open::open_listing;
use crate::piece::next_piece;
use crate::{ListingFiles, TableIndex};
use common::refusal::Refusal;
use deck::Table;
use listing::{Cursor, Piece};

// The piece of the files' listing from a cursor on.
pub fn list_piece(files: ListingFiles, cursor: Cursor, out: &mut [u8]) -> Result<Piece, Refusal>
    ensures { let p = packed_files files.entry cursor out.old in
        (result ≡ piece_of p) × (out.new ≡ piece_to out.old p) }
{
    let mut table = Table::empty();
    let mut index = TableIndex::empty();
    let opening = open_listing(files, &mut table, &mut index);
    next_piece(files, opening, &table, &index, cursor, out)
}
