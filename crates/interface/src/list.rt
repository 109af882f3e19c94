// The listing of a deck, a window file and calls, piece by piece.
ghost use Rattle.std.specs.Prelude.{◌≡◌};
ghost use Rattle.listing.specs.Pieces.{piece_of, piece_to};
ghost use Rattle.interface.specs.List.{piece_at, moved_to, moved, Listed};

use answers::outcome_of;
use common::refusal::Refusal;
use listing::{Cursor, Piece};
use pieces::{ListingFiles, list_piece};
use words::VareffectOutcome;

// The piece from the cursor on. Behind the end there is none.
fn piece_at(files: ListingFiles, cursor: &[usize; 3], out: &mut [u8]) -> Result<Piece, Refusal>
    ensures { let f = files.entry in
        let p = piece_at f.deck.now f.window.now f.calls.now cursor.now out.old in
        (result ≡ piece_of p) × (out.new ≡ piece_to out.old p) }
{
    if cursor[2] != 0 {
        return Ok(Piece {
            length: 0,
            next: None,
        });
    }
    let from = Cursor {
        at: cursor[0],
        entry: cursor[1],
    };
    list_piece(files, from, out)
}

fn move_to(cursor: &mut [usize; 3], next: Option<Cursor>)
    ensures { cursor.new ≡ moved_to cursor.old next }
{
    match next {
        Some(next) => {
            cursor[0] = next.at;
            cursor[1] = next.entry;
        }
        None => cursor[2] = 1,
    }
}

fn move_on(cursor: &mut [usize; 3], piece: Result<Piece, Refusal>)
    ensures { cursor.new ≡ moved cursor.old piece }
{
    if let Ok(piece) = piece {
        move_to(cursor, piece.next);
    }
}

// The next lines of the listing, as many as fit into `out`, and their length. The cursor begins as zeros and is moved on; its third
// word is 1 once all is listed. 28 where not even one line fits.
pub fn vareffect_list(
    deck: &[u8],
    window: &[u8],
    calls: &[u8],
    cursor: &mut [usize; 3],
    out: &mut [u8],
) -> VareffectOutcome
    ensures { Listed
        deck.now window.now calls.now
        cursor.old out.old cursor.new out.new result }
{
    let files = ListingFiles {
        deck,
        window,
        calls,
    };
    let piece = piece_at(files, cursor, out);
    move_on(cursor, piece);
    outcome_of(piece.map(|piece| piece.length))
}
