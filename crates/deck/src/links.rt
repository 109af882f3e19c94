// The links of a deck's records, one behind the other.
ghost use Rattle.std.specs.Prelude.{◌≤◌, ◌<◌, ◌≡◌};
ghost use Rattle.deck.specs.Records.{record_count, half};
ghost use Rattle.deck.specs.code.Links.{link_or, exon_link, segment_link, next_link, bounds_after};

use crate::kind::Kind;
use crate::record::DeckBytes;

// A link: the kind that it must lead to, the record that holds it, and the record that it leads to, 0 for none.
// Nought is none, as in the file: no link leads to the head. Not in two bytes, as in the file, which would spare the bounds below: decks
// were read a twentieth slower.
#[derive(Clone, Copy)]
pub(crate) struct Link {
    pub(crate) kind: Kind,
    pub(crate) from: usize,
    pub(crate) to: usize,
}

impl Link {
    // This link; where it ends its chain, the link at byte k of the chain's holder, to the kind that follows.
    #[inline(always)]
    fn or(self, d: DeckBytes, kind: Kind, holder: usize, k: usize) -> Link
        requires { (holder < record_count d.bytes.now) × (k ≤ 14) }
        ensures { result ≡ link_or self (record { kind = kind; from = holder; to = half d.entry.bytes.now holder k }) }
    {
        if self.to == 0 {
            Link {
                kind,
                from: holder,
                to: d.link(holder, k),
            }
        } else {
            self
        }
    }
}

impl<'a> DeckBytes<'a> {
    // The link at byte k of record i.
    #[inline(always)]
    pub(crate) fn link(self, i: usize, k: usize) -> usize
        requires { (i < record_count self.bytes.now) × (k ≤ 14) }
        ensures { result ≡ half self.entry.bytes.now i k }
    {
        self.record(i).u16_at(k) as usize
    }

    // The next exon of transcript t, else its bounds. Of segments likewise below: all that differs are the operands.
    #[inline(always)]
    pub(crate) fn exon_link(self, t: usize, from: usize, to: usize) -> Link
        requires { t < record_count self.bytes.now }
        ensures { result ≡ exon_link self.entry.bytes.now t from to }
    {
        let exon = Link {
            kind: Kind::Exon,
            from,
            to,
        };
        exon.or(self, Kind::Bounds, t, 12)
    }

    // The next segment of bounds b, else its first selenocysteine base.
    #[inline(always)]
    fn segment_link(self, b: usize, from: usize, to: usize) -> Link
        requires { b < record_count self.bytes.now }
        ensures { result ≡ segment_link self.entry.bytes.now b from to }
    {
        let segment = Link {
            kind: Kind::Segment,
            from,
            to,
        };
        segment.or(self, Kind::Selenocysteine, b, 14)
    }

    // The link behind record `at` of transcript t with bounds b.
    #[inline(always)]
    pub(crate) fn next_link(self, t: usize, b: usize, kind: Kind, at: usize) -> Link
        requires { let n = record_count self.bytes.now in (t < n) × (b < n) × (at < n) }
        ensures { result ≡ next_link self.entry.bytes.now t b kind at }
    {
        match kind {
            Kind::Exon => self.exon_link(t, at, self.link(at, 2)),
            Kind::Bounds => self.segment_link(at, at, self.link(at, 12)),
            Kind::Segment => self.segment_link(b, at, self.link(at, 2)),
            Kind::Head | Kind::Transcript | Kind::Selenocysteine => Link {
                kind: Kind::Selenocysteine,
                from: at,
                to: self.link(at, 2),
            },
        }
    }
}

// The transcript's bounds once record `at` is reached.
pub(crate) fn bounds_after(b: usize, kind: Kind, at: usize) -> usize
    ensures { result ≡ bounds_after b kind at }
{
    if kind == Kind::Bounds { at } else { b }
}
