// The transport header of RPC-over-RDMA version 1: what it holds, and the words that hold it. Public: Header and its parts.
#![tactic(auto)]

ghost use Rattle.std.specs.Prelude.{◌≡◌, List, ℕ, length, take};
ghost use Rattle.std.proofs.Math.Option.{some};
ghost use Rattle.header.specs.Limits.{total, within_limits, keeps_limits};
ghost use Rattle.header.specs.Content.{header_of, nothing};
ghost use Rattle.header.specs.Words.{kind_number, low_of, high_of, kind_in, counts_in, header_in, header_words};
ghost use Rattle.header.specs.Internal.Lent.{header_lent, LentFrom};

use chunk_lists::{ReadList, ReplyChunk, WriteList};
use wire::{ReadSegment, Segment};

// "Fixed words: xid, version (1), credit, procedure.": where each stands, and how many bytes they take.
pub const XID_AT: usize = 0;

pub const VERSION_AT: usize = XID_AT + wire::WORD_BYTES;

pub const CREDIT_AT: usize = VERSION_AT + wire::WORD_BYTES;

pub const PROCEDURE_AT: usize = CREDIT_AT + wire::WORD_BYTES;

pub const FIXED_BYTES: usize = PROCEDURE_AT + wire::WORD_BYTES;

pub const VERSION: u32 = 1;

// "Procedures: 0 MSG, 1 NOMSG, 2 MSGP, 3 DONE, 4 ERROR."
// Stays: the numbers of the wire, and so the error codes below; past the reader a kind is a Kind.
pub const PROCEDURE_MSG: u32 = 0;

pub const PROCEDURE_NOMSG: u32 = 1;

pub const PROCEDURE_DONE: u32 = 3;

pub const PROCEDURE_ERROR: u32 = 4;

// The fixed words and the marker that ends a read list.
pub const EMPTY_READS_BYTES: usize = FIXED_BYTES + wire::WORD_BYTES;

// "a code word: 1 (version) and then low and high, or 2 (chunk) and no more"
pub const CODE_VERSION: u32 = 1;

pub const CODE_CHUNK: u32 = 2;

pub const CODE_AT: usize = FIXED_BYTES;

pub const LOW_AT: usize = CODE_AT + wire::WORD_BYTES;

pub const HIGH_AT: usize = LOW_AT + wire::WORD_BYTES;

pub const VERSION_ERROR_BYTES: usize = HIGH_AT + wire::WORD_BYTES;

pub const CHUNK_ERROR_BYTES: usize = CODE_AT + wire::WORD_BYTES;

// "Version(low, high) or Chunk"
#[derive(Clone, Copy)]
pub enum ErrorKind {
    Version(u32, u32),
    Chunk,
}

// "The kind of header that a reader gets holds, for ERROR, which of the two it is, with its numbers."
#[derive(Clone, Copy)]
pub enum Kind {
    Msg,
    Nomsg,
    Error(ErrorKind),
}

#[derive(Clone, Copy)]
pub struct Header {
    pub reads: ReadList,
    pub writes: WriteList,
    pub reply: ReplyChunk,
    pub kind: Kind,
    pub xid: u32,
    pub credit: u32,
}

// A header as 238 words that a caller lends: where each part stands. The read list comes first, a reserved word last.
pub const WRITES_AT: usize = chunk_lists::MAX_READ_SEGMENTS * wire::READ_SEGMENT_WORDS;

pub const REPLY_AT: usize = WRITES_AT + chunk_lists::MAX_WRITE_SEGMENTS * wire::SEGMENT_WORDS;

pub const WRITE_COUNTS_AT: usize = REPLY_AT + chunk_lists::MAX_REPLY_SEGMENTS * wire::SEGMENT_WORDS;

pub const READ_COUNT_AT: usize = WRITE_COUNTS_AT + chunk_lists::MAX_WRITE_CHUNKS;

pub const WRITE_CHUNKS_AT: usize = READ_COUNT_AT + 1;

pub const REPLY_PRESENT_AT: usize = WRITE_CHUNKS_AT + 1;

pub const REPLY_COUNT_AT: usize = REPLY_PRESENT_AT + 1;

pub const KIND_WORD_AT: usize = REPLY_COUNT_AT + 1;

pub const LOW_WORD_AT: usize = KIND_WORD_AT + 1;

pub const HIGH_WORD_AT: usize = LOW_WORD_AT + 1;

pub const XID_WORD_AT: usize = HIGH_WORD_AT + 1;

pub const CREDIT_WORD_AT: usize = XID_WORD_AT + 1;

// A kind as a number, where a caller lends it.
// Stays: the numbers of the C interface (eos_header's kind); past kind_in a kind is a Kind.
pub const KIND_MSG: u32 = 0;

pub const KIND_NOMSG: u32 = 1;

pub const KIND_VERSION_ERROR: u32 = 2;

pub const KIND_CHUNK_ERROR: u32 = 3;

// The kind that a number names; low and high count for a version error alone.
#[tactic(auto, unfolding(crate::specs::Words::kind_in))]
pub fn kind_in(number: u32, low: u32, high: u32) -> Option<Kind>
    ensures { result ≡ kind_in number low high }
{
    match number {
        KIND_MSG => Some(Kind::Msg),
        KIND_NOMSG => Some(Kind::Nomsg),
        KIND_VERSION_ERROR => Some(Kind::Error(ErrorKind::Version(low, high))),
        KIND_CHUNK_ERROR => Some(Kind::Error(ErrorKind::Chunk)),
        _ => None,
    }
}

// A kind as a number.
pub fn kind_number(kind: Kind) -> u32
    ensures { result ≡ kind_number kind }
{
    match kind {
        Kind::Msg => KIND_MSG,
        Kind::Nomsg => KIND_NOMSG,
        Kind::Error(ErrorKind::Version(_, _)) => KIND_VERSION_ERROR,
        Kind::Error(ErrorKind::Chunk) => KIND_CHUNK_ERROR,
    }
}

// The two numbers of a version error; zero for any other kind.
// Stays: two functions, as the definitions `low_of` and `high_of` that the laws of the words cite; one answering a pair is no shorter where they are stored.
pub fn low_of(kind: Kind) -> u32
    ensures { result ≡ low_of kind }
{
    match kind {
        Kind::Error(ErrorKind::Version(low, _)) => low,
        _ => 0,
    }
}

pub fn high_of(kind: Kind) -> u32
    ensures { result ≡ high_of kind }
{
    match kind {
        Kind::Error(ErrorKind::Version(_, high)) => high,
        _ => 0,
    }
}

// The segments of the first n chunks, of four at most, in 64 bits, so that no counts wrap.
pub fn total_count(words: &[u32; 238], n: usize) -> usize
    ensures { result ≡ total (take n (counts_in words.now)) }
{
    words[WRITE_COUNTS_AT..READ_COUNT_AT]
        .iter()
        .take(n)
        .map(|&count| count as usize)
        .sum()
}

// Whether the counts of a header are within its limits; `segments` is the sum of those of its write chunks.
// Stays: present beside replies, as in README's Header and in the words of eos_header.
#[tactic(auto, unfolding(crate::specs::Limits::within_limits))]
pub fn within_limits(
    reads: usize,
    chunks: usize,
    segments: usize,
    present: bool,
    replies: usize,
) -> bool
    ensures { (counts : List ℕ) → segments ≡ total (take chunks counts) → result ≡ within_limits reads chunks counts present replies }
{
    reads <= chunk_lists::MAX_READ_SEGMENTS
        && chunks <= chunk_lists::MAX_WRITE_CHUNKS
        && segments <= chunk_lists::MAX_WRITE_SEGMENTS
        && if present {
            replies <= chunk_lists::MAX_REPLY_SEGMENTS
        } else {
            replies == 0
        }
}

// An all-zero header of kind MSG without a reply chunk.
#[tactic(auto, unfolding(crate::specs::Content::header_of, wire::specs::Wire::joined))]
fn nothing() -> Header
    ensures { result ≡ header_of nothing }
{
    let z = Segment {
        handle: 0,
        length: 0,
        offset: 0,
    };
    let r = ReadSegment {
        position: 0,
        target: z,
    };
    Header {
        reads: ReadList {
            segments: [r; 16],
            count: 0,
        },
        writes: WriteList {
            segments: [z; 16],
            counts: [0u32; 4],
            chunks: 0,
        },
        reply: ReplyChunk {
            segments: [z; 16],
            count: 0,
            present: false,
        },
        kind: Kind::Msg,
        xid: 0,
        credit: 0,
    }
}

// The header that words hold. (Words that hold none, for a kind that no number names, give an empty one.)
pub fn header_of(words: &[u32; 238]) -> Header
    ensures { (h : Header) → header_in words.now ≡ some h → result ≡ h }
{
    let Some(kind) = kind_in(words[KIND_WORD_AT], words[LOW_WORD_AT], words[HIGH_WORD_AT]) else {
        return nothing();
    };
    let mut counts = [0; 4];
    counts.copy_from_slice(&words[WRITE_COUNTS_AT..READ_COUNT_AT]);
    Header {
        reads: ReadList {
            segments: chunk_lists::segments_in(words, 0),
            count: words[READ_COUNT_AT],
        },
        writes: WriteList {
            segments: chunk_lists::segments_in(words, WRITES_AT),
            counts,
            chunks: words[WRITE_CHUNKS_AT],
        },
        reply: ReplyChunk {
            segments: chunk_lists::segments_in(words, REPLY_AT),
            count: words[REPLY_COUNT_AT],
            present: words[REPLY_PRESENT_AT] == wire::FLAG_SET,
        },
        kind,
        xid: words[XID_WORD_AT],
        credit: words[CREDIT_WORD_AT],
    }
}

// A header in words that a caller lends, its kind and whether it has a reply chunk known.
#[derive(Clone, Copy)]
pub struct Lent<'a> {
    pub words: &'a [u32; 238],
    pub kind: Kind,
    pub present: bool,
}

// The header in lent words; none where the kind or the flag is a number that stands for nothing.
#[tactic(auto, unfolding(crate::specs::Words::header_in))]
pub fn header_in(words: &[u32; 238]) -> Option<Lent<'_>>
    ensures { LentFrom words.now result }
{
    let kind = kind_in(words[KIND_WORD_AT], words[LOW_WORD_AT], words[HIGH_WORD_AT])?;
    let flag = words[REPLY_PRESENT_AT];
    if wire::FLAG_SET < flag {
        return None;
    }
    Some(Lent {
        words,
        kind,
        present: flag == wire::FLAG_SET,
    })
}

impl Lent<'_> {
    // Whether the counts are within their limits.
    pub fn keeps_limits(self) -> bool
        ensures { result ≡ keeps_limits (header_lent self.entry) }
    {
        let chunks = self.words[WRITE_CHUNKS_AT] as usize;
        within_limits(
            self.words[READ_COUNT_AT] as usize,
            chunks,
            total_count(self.words, chunks),
            self.present,
            self.words[REPLY_COUNT_AT] as usize,
        )
    }
}

// The words of a header.
pub fn words_of(h: Header) -> [u32; 238]
    ensures { result ≡ header_words h }
{
    let mut words = [0; 238];
    chunk_lists::store_segments(&mut words, 0, h.reads.segments);
    chunk_lists::store_segments(&mut words, WRITES_AT, h.writes.segments);
    chunk_lists::store_segments(&mut words, REPLY_AT, h.reply.segments);
    words[WRITE_COUNTS_AT..READ_COUNT_AT].copy_from_slice(&h.writes.counts);
    words[READ_COUNT_AT] = h.reads.count;
    words[WRITE_CHUNKS_AT] = h.writes.chunks;
    words[REPLY_PRESENT_AT] = u32::from(h.reply.present);
    words[REPLY_COUNT_AT] = h.reply.count;
    words[KIND_WORD_AT] = kind_number(h.kind);
    words[LOW_WORD_AT] = low_of(h.kind);
    words[HIGH_WORD_AT] = high_of(h.kind);
    words[XID_WORD_AT] = h.xid;
    words[CREDIT_WORD_AT] = h.credit;
    words
}
