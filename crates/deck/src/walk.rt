// The walk over the deck's links. The first bad link ends it.
// Links are followed by `while`: which record comes next stands in the one just reached, and a bad link ends the walk.
ghost use Rattle.std.specs.Prelude.{◌≤◌, ◌<◌, ◌≡◌, ◌≢◌, ◌||◌, false, IfOk, IsTrue, MatchResult};
ghost use Rattle.deck.specs.Records.{record_count, next_of, lowest};
ghost use Rattle.deck.specs.Refused.{link_refusal};
ghost use Rattle.deck.specs.Walk.{walk_deck, walked_as};
ghost use Rattle.deck.specs.code.Order.{IsOrder};
ghost use Rattle.deck.specs.code.Trail.{first_trail, with_record, is_bad, is_unreached, left, Before, Stops, Through};

use crate::DeckRefusal;
use crate::kind::Kind;
use crate::links::{Link, bounds_after};
use crate::record::DeckBytes;
use common::refusal::Refusal;

// The records reached so far: a mark for each, and besides the head their order and how many they are.
// Fixed memory: a count beside the array, no Vec.
#[derive(Drop)]
pub(crate) struct Trail {
    marks: [bool; 4096],
    pub(crate) order: [u16; 4096],
    pub(crate) count: usize,
}

// 24 of the record that holds a bad link, or that no link reaches.
#[tactic(auto, unfolding(common::specs::Refusal::refusal))]
fn link_refusal(i: usize) -> DeckRefusal
    requires { i < 4096 }
    ensures { result ≡ link_refusal i }
{
    DeckRefusal {
        refusal: Refusal::Link,
        record: i as u16,
    }
}

impl Trail {
    // The head alone.
    pub(crate) fn start() -> Trail
        ensures { result ≡ first_trail }
    {
        let mut marks = [false; 4096];
        marks[0] = true;
        Trail {
            marks,
            order: [0; 4096],
            count: 0,
        }
    }

    // A link outside the deck, to a wrong kind, or to a record already reached.
    fn is_bad(&self, d: DeckBytes, link: Link) -> bool
        ensures { result ≡ is_bad d.entry.bytes.now link self.now }
    {
        if d.count() <= link.to {
            return true;
        }
        d.record(link.to).kind() != u8::from(link.kind) || self.marks[link.to]
    }

    // The record that a link leads to is reached, unless the link is bad.
    fn follow(&mut self, d: DeckBytes, link: Link) -> Result<(), DeckRefusal>
        requires holder { link.from < record_count d.bytes.now }
        requires room { is_bad d.bytes.now link self.old ≡ false → self.old.count < 4096 }
        ensures { let bad = is_bad d.entry.bytes.now link self.old in MatchResult result
            (λ u. (bad ≡ false) × (self.new ≡ with_record self.old link.to))
            (λ e. IsTrue bad × (e ≡ link_refusal link.from)) }
    {
        if self.is_bad(d, link) {
            return Err(link_refusal(link.from));
        }
        self.marks[link.to] = true;
        self.order[self.count] = link.to as u16;
        self.count += 1;
        Ok(())
    }

    // The records of transcript t, to which record `from` links: its exons, bounds, segments, selenocysteine bases.
    fn walk_transcript(&mut self, d: DeckBytes, from: usize, t: usize) -> Result<(), DeckRefusal>
        requires linked { t ≢ 0 }
        requires before { Before d.bytes.now self.old from t }
        ensures { let bytes = d.entry.bytes.now in MatchResult result
            (λ u. Before bytes self.new t (next_of bytes t) × (left bytes self.new < left bytes self.old)) (λ e. Stops bytes e) }
    {
        self.follow(
            d,
            Link {
                kind: Kind::Transcript,
                from,
                to: t,
            },
        )?;
        let mut b = 0;
        let mut link = d.exon_link(t, t, d.link(t, 10));
        while link.to != 0 {
            self.follow(d, link)?;
            let reached = link;
            link = d.next_link(t, b, reached.kind, reached.to);
            b = bounds_after(b, reached.kind, reached.to);
        }
        Ok(())
    }

    // The transcripts one behind the other, from the head on.
    fn walk_transcripts(&mut self, d: DeckBytes) -> Result<(), DeckRefusal>
        requires { self.old ≡ first_trail }
        ensures { let bytes = d.entry.bytes.now in MatchResult result (λ u. Through bytes self.new) (λ e. Stops bytes e) }
    {
        let mut from = 0;
        let mut t = d.link(0, 2);
        while t != 0 {
            self.walk_transcript(d, from, t)?;
            from = t;
            t = d.link(t, 2);
        }
        Ok(())
    }

    // The lowest of the first n records that is not reached, n where all are.
    #[tactic(auto, using(crate::proofs::Lowest::lowest_on, crate::proofs::Lowest::lowest_here, crate::proofs::Lowest::lowest_none))]
    fn first_unreached(&self, n: usize) -> usize
        requires { n ≤ 4096 }
        ensures { result ≡ lowest (is_unreached self.now) n 0 }
    {
        for i in 0..n {
            if !self.marks[i] {
                return i;
            }
        }
        n
    }

    // Every record reached from the head, in order. The first bad link ends the whole walk; else a record never reached is bad.
    pub(crate) fn walk(&mut self, d: DeckBytes) -> Result<usize, DeckRefusal>
        requires { self.old ≡ first_trail }
        ensures value { let bytes = d.entry.bytes.now in result ≡ walked_as bytes (walk_deck bytes) }
        ensures order_after { IfOk result (λ n. IsOrder d.entry.bytes.now n self.new.order) }
    {
        self.walk_transcripts(d)?;
        let count = d.count();
        let low = self.first_unreached(count);
        if low < count {
            return Err(link_refusal(low));
        }
        Ok(self.count)
    }
}
