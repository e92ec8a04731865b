// Words and segments, of which every part of a transport header is made, read from a frame and written into a buffer. The types are public, the calls internal to the library: they ask that the bytes are there.
#![tactic(auto)]

ghost use Rattle.std.specs.Prelude.{ℕ, ◌≡◌, ◌+◌, ◌*◌, ◌≤◌, List, length, drop};
ghost use Rattle.answers.specs.Refusals.{numbered};
ghost use Rattle.wire.specs.Words.{join_words, segment_in, segment_words, read_segment_in, read_segment_words};
ghost use Rattle.wire.specs.Wire.{word_at, word_of, segment_at, read_segment_at, stored, word_bytes};
ghost use Rattle.wire.specs.Items.{segment_drop, read_segment_drop, segment_words_lem, read_segment_words_lem};

use answers::Refusal;

// "All numbers on the wire are big-endian 32-bit words, but a segment's offset has 64 bits."
pub const WORD_BYTES: usize = 4;

// "handle, length, offset: 16 bytes each"
pub const SEGMENT_BYTES: usize = SEGMENT_WORDS * WORD_BYTES;

// "An entry is position, handle, length, offset: 20 bytes."
pub const READ_SEGMENT_BYTES: usize = WORD_BYTES + SEGMENT_BYTES;

// A segment in words that a caller lends: which they are, and how many.
pub const HANDLE_AT: usize = 0;

pub const LENGTH_AT: usize = HANDLE_AT + 1;

pub const OFFSET_LOW_AT: usize = LENGTH_AT + 1;

pub const OFFSET_HIGH_AT: usize = OFFSET_LOW_AT + 1;

pub const SEGMENT_WORDS: usize = OFFSET_HIGH_AT + 1;

// The same of a read segment.
pub const POSITION_AT: usize = 0;

const RESERVED_AT: usize = POSITION_AT + 1;

pub const TARGET_AT: usize = RESERVED_AT + 1;

pub const READ_SEGMENT_WORDS: usize = TARGET_AT + SEGMENT_WORDS;

// A flag that is set, as a word.
pub const FLAG_SET: u32 = 1;

// Memory that the other side registered.
#[derive(Clone, Copy)]
pub struct Segment {
    pub handle: u32,
    pub length: u32,
    pub offset: u64,
}

// A segment to be pulled, and where in the message its bytes go.
#[derive(Clone, Copy)]
pub struct ReadSegment {
    pub position: u32,
    pub target: Segment,
}

// A number of 64 bits from its two words.
pub fn join_words(high: u32, low: u32) -> u64
    ensures { result ≡ join_words low high }
{
    u64::from(high) * 4294967296 + u64::from(low)
}

// The word in the bytes from `k` on.
pub fn word_at(s: &[u8], k: usize) -> u32
    requires { k + 4 ≤ length s.now }
    ensures { result ≡ word_at s.now k }
{
    u32::from_be_bytes([s[k], s[k + 1], s[k + 2], s[k + 3]])
}

// The first word.
pub fn first_word(s: &[u8]) -> Result<u32, Refusal>
    ensures { numbered result ≡ word_of s.now }
{
    if s.len() < WORD_BYTES {
        return Err(Refusal::EndsInsideField);
    }
    Ok(word_at(s, 0))
}

// Writes a word into the bytes from `k` on.
pub fn put_word(out: &mut [u8], k: usize, x: u32)
    requires { k + 4 ≤ length out.old }
    ensures { out.new ≡ stored out.old k (word_bytes x) }
{
    out[k..k + WORD_BYTES].copy_from_slice(&x.to_be_bytes());
}

// What the lists of a header hold, one behind the other: how it lies in their bytes, and in words that a caller lends.
pub trait Item: Copy {
    // How many bytes of a list stand before each (a read entry has a marker of its own), and how many it has itself.
    const MARKER_BYTES: usize;

    const BYTES: usize;

    const WORDS: usize;

    ghost MARKER_BYTES: { ℕ };

    ghost BYTES: { ℕ };

    ghost WORDS: { ℕ };

    ghost item_at: { List ℕ → ℕ → Self };

    ghost item_in: { List ℕ → Self };

    ghost item_words: { Self → List ℕ };

    // The item in the bytes from `k` on.
    fn decode(s: &[u8], k: usize) -> Self
        requires { k + BYTES ≤ length s.now }
        ensures { result ≡ item_at s.now k };

    // The item in the words from `k` on.
    fn load(words: &[u32], k: usize) -> Self
        requires { k + WORDS ≤ length words.now }
        ensures { result ≡ item_in (drop k words.now) };

    // Stores it into the words from `k` on.
    fn store(self, words: &mut [u32], k: usize)
        requires { k + WORDS ≤ length words.old }
        ensures { words.new ≡ stored words.old k (item_words self) };

    // Behind some bytes it is read as at its place among all.
    ghost item_behind: { (k j : ℕ) (s : List ℕ) → item_at (drop k s) j ≡ item_at s (k + j) };

    // It has so many words.
    ghost words_long: { (x : Self) → length (item_words x) ≡ WORDS };
}

impl Item for Segment {
    const MARKER_BYTES: usize = 0;

    const BYTES: usize = SEGMENT_BYTES;

    const WORDS: usize = SEGMENT_WORDS;

    ghost MARKER_BYTES = { 0 };

    ghost BYTES = { 16 };

    ghost WORDS = { 4 };

    ghost item_at = { segment_at };

    ghost item_in = { segment_in };

    ghost item_words = { segment_words };

    fn decode(s: &[u8], k: usize) -> Segment {
        Segment {
            handle: word_at(s, k),
            length: word_at(s, k + 4),
            offset: join_words(word_at(s, k + 8), word_at(s, k + 12)),
        }
    }

    fn load(words: &[u32], k: usize) -> Segment {
        Segment {
            handle: words[k + HANDLE_AT],
            length: words[k + LENGTH_AT],
            offset: join_words(words[k + OFFSET_HIGH_AT], words[k + OFFSET_LOW_AT]),
        }
    }

    fn store(self, words: &mut [u32], k: usize) {
        words[k + HANDLE_AT] = self.handle;
        words[k + LENGTH_AT] = self.length;
        words[k + OFFSET_LOW_AT] = (self.offset % 4294967296) as u32;
        words[k + OFFSET_HIGH_AT] = (self.offset / 4294967296) as u32;
    }

    ghost item_behind = { segment_drop };

    ghost words_long = { segment_words_lem };
}

impl Item for ReadSegment {
    const MARKER_BYTES: usize = WORD_BYTES;

    const BYTES: usize = READ_SEGMENT_BYTES;

    const WORDS: usize = READ_SEGMENT_WORDS;

    ghost MARKER_BYTES = { 4 };

    ghost BYTES = { 20 };

    ghost WORDS = { 6 };

    ghost item_at = { read_segment_at };

    ghost item_in = { read_segment_in };

    ghost item_words = { read_segment_words };

    fn decode(s: &[u8], k: usize) -> ReadSegment {
        ReadSegment {
            position: word_at(s, k),
            target: Segment::decode(s, k + WORD_BYTES),
        }
    }

    fn load(words: &[u32], k: usize) -> ReadSegment {
        ReadSegment {
            position: words[k + POSITION_AT],
            target: Segment::load(words, k + TARGET_AT),
        }
    }

    fn store(self, words: &mut [u32], k: usize) {
        words[k + POSITION_AT] = self.position;
        words[k + RESERVED_AT] = 0;
        self.target.store(words, k + TARGET_AT);
    }

    ghost item_behind = { read_segment_drop };

    ghost words_long = { read_segment_words_lem };
}
