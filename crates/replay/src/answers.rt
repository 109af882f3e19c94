// A block behind its kind: a transcript, then answers, each held against the port's.
ghost use Rattle.std.specs.Prelude.{ℕ, ◌≤◌, ◌<◌, length};

use crate::counts::{Counts, Kind, report};
use crate::layout::{Answers, answers_of};
use crate::numbers::{byte_at, from, u16_at, u32_at};
use crate::transcripts::head_of;
use crate::{asking, calling, index, placing};
use transcript::{CdsSegments, Intervals, Transcript};

// Whether an answer is the port's. The window of a call stands behind the transcript.
fn is_same(answer: &[u8], kind: Kind, behind: &[u8], transcript: &Transcript) -> bool {
    match kind {
        Kind::Transcripts => index::is_same(answer, transcript),
        Kind::Places => placing::is_same(answer, transcript),
        Kind::Intervals => asking::is_same(answer, transcript),
        Kind::Calls => calling::is_same(answer, behind, transcript),
    }
}

// Whether the answer at p differs, which is then written.
fn differs(rt: &impl Print, b: &[u8], p: usize, a: Answers, transcript: &Transcript) -> bool {
    let answer = from(b, p);
    if is_same(answer, a.kind, from(b, a.at), transcript) {
        return false;
    }
    report(
        rt,
        b"different",
        a.kind,
        transcript.model.id,
        u32_at(answer, 0),
    );
    true
}

// All answers of the block. No `step_by` or `chunks`: the step to the next is 0 for an index.
fn judge_answers(rt: &impl Print, b: &[u8], a: Answers, transcript: &Transcript) -> Counts
    ensures { (result.compared ≤ 4096) × (result.different ≤ 4096) }
{
    let mut different: u64 = 0;
    let mut p = a.first;
    for i in 0..a.count {
        different += u64::from(differs(rt, b, p, a, transcript));
        p += a.step;
    }
    // An index is compared up to its end.
    if 0 < a.step && p != b.len() {
        report(rt, b"not whole", a.kind, transcript.model.id, p as u64);
    }
    Counts {
        compared: a.count,
        different,
    }
}

// Puts into each element what is read for its index.
fn fill<T: Copy, F: Fn(usize) -> T>(out: &mut [T], read: F)
    requires { (i : ℕ) → i < length out.old → F.pre read i }
{
    for (i, x) in out.iter_mut().enumerate() {
        *x = read(i);
    }
}

// The first n intervals.
fn first_of<'a>(starts: &'a [u64], ends: &'a [u64], n: usize) -> Intervals<'a>
    requires { (n ≤ length starts.now) × (n ≤ length ends.now) }
{
    Intervals {
        starts: &starts[..n],
        ends: &ends[..n],
    }
}

// The block's answers, each against the port's.
pub(crate) fn judge(rt: &impl Print, kind: Kind, b: &[u8]) -> Counts
    ensures { (result.compared ≤ 4096) × (result.different ≤ 4096) }
{
    let h = head_of(b);
    let mut starts = [0u64; 512];
    let mut ends = [0u64; 512];
    let mut phases = [0u8; 512];
    let mut exon_indexes = [0u16; 512];
    let mut froms = [0u64; 512];
    let mut tos = [0u64; 512];
    let mut bases = [0u64; 64];
    let at = h.segments_at;
    fill(&mut starts[..h.exons], |i| u32_at(b, 32 + 8 * i));
    fill(&mut ends[..h.exons], |i| u32_at(b, 36 + 8 * i));
    fill(&mut phases[..h.segments], |i| byte_at(b, at + 12 * i) as u8);
    fill(
        &mut exon_indexes[..h.segments],
        |i| u16_at(b, at + 2 + 12 * i) as u16,
    );
    fill(&mut froms[..h.segments], |i| u32_at(b, at + 4 + 12 * i));
    fill(&mut tos[..h.segments], |i| u32_at(b, at + 8 + 12 * i));
    fill(&mut bases[..h.bases], |i| u32_at(b, h.bases_at + 4 * i));
    let exons = first_of(&starts, &ends, h.exons);
    let coding = first_of(&froms, &tos, h.segments);
    let segments = CdsSegments {
        phases: &phases[..h.segments],
        exon_indexes: &exon_indexes[..h.segments],
        bases: coding,
    };
    let transcript = Transcript {
        model: h.model,
        exons,
        segments,
        selenocysteine: &bases[..h.bases],
    };
    judge_answers(rt, b, answers_of(b, kind, h.end), &transcript)
}
