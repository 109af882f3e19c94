// Decks: whether one is accepted, and which transcripts it has.
ghost use Rattle.std.specs.Prelude.{◌≡◌};
ghost use Rattle.common.specs.Stored.{stored};
ghost use Rattle.deck.specs.Deck.{read_deck};
ghost use Rattle.contents.specs.Contents.{deck_content, deck_ids, place_content, chosen, Stored};
ghost use Rattle.interface.specs.Decks.{deck_outcome, uncounted};

use contents::{TranscriptLists, deck_ids, deck_transcript};
use deck::{DeckRefusal, check_deck};
use words::VareffectOutcome;

// A number beside a value: what callers in C get, who have no Result.
fn deck_outcome(answer: Result<usize, DeckRefusal>) -> VareffectOutcome
    ensures { result ≡ deck_outcome answer }
{
    match answer {
        Ok(n) => VareffectOutcome {
            number: 0,
            value: n as u64,
        },
        Err(e) => VareffectOutcome {
            number: u64::from(u8::from(e.refusal)),
            value: u64::from(e.record),
        },
    }
}

// The number of a deck's refusal and the record at fault; 0 and 0 where the deck is accepted.
pub fn vareffect_check_deck(bytes: &[u8]) -> VareffectOutcome
    ensures { result ≡ deck_outcome (uncounted (read_deck bytes.now)) }
{
    deck_outcome(check_deck(bytes).map(|()| 0))
}

// How many transcripts the deck has. Their ids are stored at the front of `ids` as far as it reaches.
pub fn vareffect_deck_ids(bytes: &[u8], ids: &mut [u32]) -> VareffectOutcome
    ensures value { result ≡ deck_outcome (deck_content bytes.now) }
    ensures ids_after { ids.new ≡ stored ids.old 0 (deck_ids bytes.now) }
{
    deck_outcome(deck_ids(bytes, ids))
}

// The transcript at a place in chain order, and how many the deck has; 25 where none stands there. Its scalars and lists are stored
// at the front of those lent, whose rest stays.
pub fn vareffect_deck_transcript(
    bytes: &[u8],
    place: usize,
    scalars: &mut [u64; 12],
    exon_starts: &mut [u64; 512],
    exon_ends: &mut [u64; 512],
    seg_phases: &mut [u8; 512],
    seg_exons: &mut [u16; 512],
    seg_starts: &mut [u64; 512],
    seg_ends: &mut [u64; 512],
    selenocysteine: &mut [u64; 64],
) -> VareffectOutcome
    ensures value { result ≡ deck_outcome (place_content bytes.now place) }
    ensures lists_after { let t = chosen bytes.now place in
        Stored t scalars exon_starts exon_ends seg_phases seg_exons seg_starts seg_ends selenocysteine }
{
    let lists = TranscriptLists {
        scalars,
        exon_starts,
        exon_ends,
        seg_phases,
        seg_exons,
        seg_starts,
        seg_ends,
        selenocysteine,
    };
    deck_outcome(deck_transcript(bytes, place, lists))
}
