// A deck's records, and those at fault by themselves.
ghost use Rattle.std.specs.Prelude.{◌+◌, ◌*◌, ◌≤◌, ◌<◌, ◌≡◌, not, length, eqb};
ghost use Rattle.deck.specs.Records.{record_count, kind_of, mark_of, half, word, unused_not_zero, bad_record, lowest};

use crate::kind::Kind;
use common::little::{u16_at, u32_at};

// The bytes of a record.
pub(crate) const RECORD_SIZE: usize = 16;

// The bytes of a deck that is neither empty nor longer than 4096 records.
#[derive(Clone, Copy)]
pub(crate) struct DeckBytes<'a> {
    pub(crate) bytes: &'a [u8],
    pub(crate) ghost size: { (16 ≤ length bytes.now) × (length bytes.now ≤ 65536) },
}

impl<'a> DeckBytes<'a> {
    // How many records there are.
    #[inline(always)]
    pub(crate) fn count(self) -> usize
        ensures { result ≡ record_count self.entry.bytes.now }
    {
        self.bytes.len() / RECORD_SIZE
    }

    #[inline(always)]
    pub(crate) fn record(self, i: usize) -> DeckRecord<'a>
        requires { i < record_count self.bytes.now }
        ensures { (result.deck.now ≡ self.entry.bytes.now) × (result.i ≡ i) }
    {
        DeckRecord {
            deck: self.bytes,
            i,
        }
    }

    // The lowest record that is at fault, their count where none is.
    #[tactic(auto, using(crate::proofs::Lowest::lowest_on, crate::proofs::Lowest::lowest_here, crate::proofs::Lowest::lowest_none))]
    pub(crate) fn first_bad(self) -> usize
        ensures { let d = self.entry.bytes.now in result ≡ lowest (bad_record d) (record_count d) 0 }
    {
        let count = self.count();
        for i in 0..count {
            if self.record(i).is_bad() {
                return i;
            }
        }
        count
    }
}

// Record i of a deck.
#[derive(Clone, Copy)]
pub(crate) struct DeckRecord<'a> {
    pub(crate) deck: &'a [u8],
    pub(crate) i: usize,
    pub(crate) ghost within: { 16 * i + 16 ≤ length deck.now },
}

impl<'a> DeckRecord<'a> {
    // The byte of the file, which may name no kind.
    pub(crate) fn kind(self) -> u8
        ensures { result ≡ kind_of self.entry.deck.now self.entry.i }
    {
        self.deck[RECORD_SIZE * self.i]
    }

    pub(crate) fn mark(self) -> u8
        ensures { result ≡ mark_of self.entry.deck.now self.entry.i }
    {
        self.deck[RECORD_SIZE * self.i + 1]
    }

    // The two-byte number at byte k. That k ≤ 14 is asked here and where k is handed on: it is one number, and a type for it is no plainer.
    pub(crate) fn u16_at(self, k: usize) -> u16
        requires { k ≤ 14 }
        ensures { result ≡ half self.entry.deck.now self.entry.i k }
    {
        u16_at(self.deck, RECORD_SIZE * self.i + k)
    }

    // The four-byte number at byte k.
    pub(crate) fn u32_at(self, k: usize) -> u32
        requires { k ≤ 12 }
        ensures { result ≡ word self.entry.deck.now self.entry.i k }
    {
        u32_at(self.deck, RECORD_SIZE * self.i + k)
    }

    // Whether the number is not zero.
    fn half_used(self, k: usize) -> bool
        requires { k ≤ 14 }
        ensures { result ≡ not (eqb (half self.entry.deck.now self.entry.i k) 0) }
    {
        self.u16_at(k) != 0
    }

    fn word_used(self, k: usize) -> bool
        requires { k ≤ 12 }
        ensures { result ≡ not (eqb (word self.entry.deck.now self.entry.i k) 0) }
    {
        self.u32_at(k) != 0
    }

    // Whether bits or bytes that its kind does not use are not zero.
    #[tactic(auto, unfolding(crate::specs::Records::unused_not_zero))]
    fn unused_not_zero(self) -> bool
        ensures { result ≡ unused_not_zero self.entry.deck.now self.entry.i }
    {
        let mark = self.mark();
        match Kind::try_from(self.kind()) {
            Ok(Kind::Head) => mark != 0
                || self.word_used(4)
                || self.word_used(8)
                || self.word_used(12),
            Ok(Kind::Transcript) => 4 <= mark || self.half_used(14),
            Ok(Kind::Bounds) => mark != 0 || self.half_used(2),
            Ok(Kind::Exon) => mark != 0 || self.word_used(12),
            Ok(Kind::Segment) => self.half_used(14),
            Ok(Kind::Selenocysteine) => mark != 0 || self.word_used(8) || self.word_used(12),
            Err(_) => true,
        }
    }

    // 23 of one record.
    pub(crate) fn is_bad(self) -> bool
        ensures { result ≡ bad_record self.entry.deck.now self.entry.i }
    {
        (self.kind() == u8::from(Kind::Head)) != (self.i == 0) || self.unused_not_zero()
    }
}
