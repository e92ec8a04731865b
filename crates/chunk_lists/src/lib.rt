// The read list, the write list and the reply chunk of a transport header. A list is checked by a function that calls
// itself on the rest and answers little; what it found is then read in one go. Internal to the library.
#![tactic(auto)]

ghost use Rattle.std.specs.Prelude.{◌≡◌, ◌+◌, ◌*◌, ◌-◌, ◌/◌, ◌≤◌, ◌<◌, length, drop, get_or};
ghost use Rattle.answers.specs.Refusals.{numbered};
ghost use Rattle.wire.specs.Wire.{stored, joined, zero_read_segment};
ghost use Rattle.chunk_lists.specs.Parsed.{each};
ghost use Rattle.chunk_lists.specs.Lists.{marker_of, read_entry, read_list, counted, write_list};
ghost use Rattle.chunk_lists.specs.Internal.Steps.{entry_step, read_step, count_step, chunk_step, list_check, entries_in_front, room_behind, chunks_at, ChunksFit, with_writes};
ghost use Rattle.chunk_lists.specs.Words.{reads_in};

use answers::Refusal;
use std::array;
use wire::{Item, ReadSegment, Segment};

// "Limits: 16 read segments; 4 write chunks holding 16 segments together; 16 segments in the reply chunk"
pub const MAX_READ_SEGMENTS: usize = 16;

pub const MAX_WRITE_CHUNKS: usize = 4;

pub const MAX_WRITE_SEGMENTS: usize = 16;

pub const MAX_REPLY_SEGMENTS: usize = 16;

// A marker and a read entry.
pub const MARKED_ENTRY_BYTES: usize = wire::WORD_BYTES + wire::READ_SEGMENT_BYTES;
// A marker and a segment count.
pub const CHUNK_HEAD_BYTES: usize = wire::WORD_BYTES + wire::WORD_BYTES;

// "a read position that is no multiple of 4": what it has to be a multiple of
pub const POSITION_UNIT: u32 = 4;

// Stays: a row of places and a count, here and in the two below. README's Header has them so, as C is lent them, and there is no heap.
#[derive(Clone, Copy)]
pub struct ReadList {
    pub segments: [ReadSegment; 16],
    pub count: u32,
}

// The segments of all chunks lie one behind the other; `counts` tells how many each chunk has.
#[derive(Clone, Copy)]
pub struct WriteList {
    pub segments: [Segment; 16],
    pub counts: [u32; 4],
    pub chunks: u32,
}

// Stays: a flag beside the count, as README's Header and the words of C have it.
#[derive(Clone, Copy)]
pub struct ReplyChunk {
    pub segments: [Segment; 16],
    pub count: u32,
    pub present: bool,
}

// What a marker word says: the end of a list, or one more entry.
#[derive(Clone, Copy)]
pub enum Marker {
    End,
    Entry,
}

// A list that was checked: how many entries it has, and how many bytes are left behind it.
#[derive(Clone, Copy)]
pub struct ListEnd {
    pub entries: usize,
    pub left: usize,
}

// How many chunks of a write list, and how many segments in all of them together.
#[derive(Clone, Copy)]
pub struct Chunks {
    pub chunks: usize,
    pub segments: usize,
}

// The marker at the front of s.
pub fn check_marker(s: &[u8]) -> Result<Marker, Refusal>
    ensures { numbered result ≡ marker_of s.now }
{
    match wire::first_word(s)? {
        0 => Ok(Marker::End),
        1 => Ok(Marker::Entry),
        _ => Err(Refusal::BadMarker),
    }
}

// A position rounded up to a multiple of 4.
// Stays: beside layout's of a length, which asks for a bound; a position of 32 bits has one.
fn rounded(position: u32) -> u64
    ensures { result ≡ (position + 3) / 4 * 4 }
{
    let unit = POSITION_UNIT as u64;
    (position as u64 + (unit - 1)) / unit * unit
}

// The read entry at the front of s.
fn check_read_entry(s: &[u8]) -> Result<Marker, Refusal>
    ensures { numbered result ≡ entry_step (read_entry s.now) }
{
    if s.len() < wire::READ_SEGMENT_BYTES {
        return Err(Refusal::EndsInsideField);
    }
    let position = wire::word_at(s, 0);
    // Told by rounding up: asked for the remainder, the compiler would take the word byte by byte.
    if rounded(position) != position as u64 {
        return Err(Refusal::PositionUnaligned);
    }
    Ok(Marker::Entry)
}

// The marker at the front of s, and the read entry behind a marker 1.
// Stays: beside check_chunk, of which it differs in what is read behind the marker; a closure for that is no shorter.
fn check_read_step(s: &[u8], room: usize) -> Result<Marker, Refusal>
    ensures { numbered result ≡ read_step room s.now }
{
    match check_marker(s)? {
        Marker::End => Ok(Marker::End),
        Marker::Entry => {
            if room == 0 {
                return Err(Refusal::OverLimit);
            }
            check_read_entry(&s[wire::WORD_BYTES..])
        }
    }
}

// How many entries stand at the front of s, of at most `room`. (A refusal is not answered here: a Result would go through memory at each level.)
fn count_entries(s: &[u8], room: usize) -> usize
    ensures { result ≡ entries_in_front room s.now }
{
    match check_read_step(s, room) {
        Ok(Marker::Entry) => count_entries(&s[MARKED_ENTRY_BYTES..], room - 1) + 1,
        Ok(Marker::End) => 0,
        Err(_) => 0,
    }
}

// Checks the read list at the front of s.
pub fn check_read_list(s: &[u8]) -> Result<ListEnd, Refusal>
    ensures { numbered result ≡ list_check 0 (read_list 16 s.now) }
{
    // The commonest list is empty: known without a call.
    if let Ok(Marker::End) = check_marker(s) {
        return Ok(ListEnd {
            entries: 0,
            left: s.len() - wire::WORD_BYTES,
        });
    }
    let entries = count_entries(s, MAX_READ_SEGMENTS);
    let rest = &s[entries * MARKED_ENTRY_BYTES..];
    // What stands behind them ends the list, or is why it is refused.
    check_read_step(rest, MAX_READ_SEGMENTS - entries)?;
    Ok(ListEnd {
        entries,
        left: rest.len() - wire::WORD_BYTES,
    })
}

// The counted run of segments at the front of s, where `left` segments may come: how many.
fn check_count(s: &[u8], left: usize) -> Result<usize, Refusal>
    requires { left ≤ 16 }
    ensures { numbered result ≡ count_step (counted left s.now) }
{
    let n = wire::first_word(s)? as usize;
    if left < n {
        return Err(Refusal::OverLimit);
    }
    if s.len() < wire::WORD_BYTES + n * wire::SEGMENT_BYTES {
        return Err(Refusal::EndsInsideField);
    }
    Ok(n)
}

// The marker at the front of s, and the counted run behind a marker 1: none at the end, or how many segments.
pub fn check_chunk(s: &[u8], room: usize, left: usize) -> Result<Option<usize>, Refusal>
    requires { left ≤ 16 }
    ensures { numbered result ≡ chunk_step room left s.now }
{
    match check_marker(s)? {
        Marker::End => Ok(None),
        Marker::Entry => {
            if room == 0 {
                return Err(Refusal::OverLimit);
            }
            let n = check_count(&s[wire::WORD_BYTES..], left)?;
            Ok(Some(n))
        }
    }
}

// How many chunks and segments may still come behind the chunks at the front of s, of at most `room` with at most `left` segments
// together. (A refusal is not answered here, as in count_entries.)
// Stays: beside count_entries, and check_write_list beside check_read_list: a chunk has a length of its own, so two numbers say where the walk stops.
fn room_behind(s: &[u8], room: usize, left: usize) -> Chunks
    requires { left ≤ 16 }
    ensures { result ≡ room_behind room left s.now }
{
    let here = Chunks {
        chunks: room,
        segments: left,
    };
    match check_chunk(s, room, left) {
        Ok(Some(n)) => {
            let end = CHUNK_HEAD_BYTES + n * wire::SEGMENT_BYTES;
            room_behind(&s[end..], room - 1, left - n)
        }
        Ok(None) => here,
        Err(_) => here,
    }
}

// Checks the write list at the front of s.
pub fn check_write_list(s: &[u8]) -> Result<ListEnd, Refusal>
    ensures { numbered result ≡ list_check 0 (write_list 4 16 s.now) }
{
    if let Ok(Marker::End) = check_marker(s) {
        return Ok(ListEnd {
            entries: 0,
            left: s.len() - wire::WORD_BYTES,
        });
    }
    let room = room_behind(s, MAX_WRITE_CHUNKS, MAX_WRITE_SEGMENTS);
    let entries = MAX_WRITE_CHUNKS - room.chunks;
    let segments = MAX_WRITE_SEGMENTS - room.segments;
    let rest = &s[entries * CHUNK_HEAD_BYTES + segments * wire::SEGMENT_BYTES..];
    // What stands behind them ends the list, or is why it is refused.
    check_chunk(rest, room.chunks, room.segments)?;
    Ok(ListEnd {
        entries,
        left: rest.len() - wire::WORD_BYTES,
    })
}

// Read segment i of the list at the front of the words.
pub fn read_segment_of(words: &[u32], i: usize) -> ReadSegment
    requires { (i < 16) × (96 ≤ length words.now) }
    ensures { result ≡ get_or (reads_in words.now) i zero_read_segment }
{
    ReadSegment::load(words, i * wire::READ_SEGMENT_WORDS)
}

// All 16 places of a list in the words from `from` on.
pub fn segments_in<T: Item>(words: &[u32], from: usize) -> [T; 16]
    requires { from + 16 * T.WORDS ≤ length words.now }
    ensures { result ≡ each T.WORDS T.item_in 16 (drop from words.now) }
{
    array::from_fn(
        |k| -> T
            requires { (k < 16) × (from + 16 * T.WORDS ≤ length words.now) }
        { T::load(words, from + k * T::WORDS) },
    )
}

// Decodes the n items from byte `from` on, each behind its marker, into the words from `to` on.
pub fn decode_segments<T: Item>(s: &[u8], from: usize, n: usize, words: &mut [u32], to: usize)
    requires { (from + n * (T.MARKER_BYTES + T.BYTES) ≤ length s.now) × (to + n * T.WORDS ≤ length words.old) }
    ensures { words.new ≡ stored words.old to (joined T.item_words (each (T.MARKER_BYTES + T.BYTES) (λ t. T.item_at t T.MARKER_BYTES) n (drop from s.now))) }
{
    for k in 0..n {
        let x = T::decode(s, from + k * (T::MARKER_BYTES + T::BYTES) + T::MARKER_BYTES);
        x.store(words, to + k * T::WORDS);
    }
}

// Stores the 16 places of a list into the words from `to` on.
pub fn store_segments<T: Item>(words: &mut [u32], to: usize, segments: [T; 16])
    requires { to + 16 * T.WORDS ≤ length words.old }
    ensures { words.new ≡ stored words.old to (joined T.item_words segments) }
{
    // Stays: the index says where in the words each goes, too; zipped with its places the loop is no shorter.
    for k in 0..16 {
        segments[k].store(words, to + k * T::WORDS);
    }
}

// Decodes the n chunks of a write list that was checked: their segments into the words from `to` on, and how many each has into
// those from `counts` on.
pub fn decode_write_list(s: &[u8], n: usize, words: &mut [u32], to: usize, counts: usize)
    requires { (n ≤ 4) × ChunksFit n 16 s.now × (to + 64 ≤ counts) × (counts + 4 ≤ length words.old) }
    ensures { words.new ≡ with_writes words.old to counts (chunks_at n s.now) }
{
    let mut from = 0;
    let mut free = to;
    // Stays: the next count is read where the last chunk ends, and no iterator goes by that.
    for i in 0..n {
        let count = wire::word_at(s, from + wire::WORD_BYTES);
        let d = count as usize;
        words[counts + i] = count;
        decode_segments::<Segment>(s, from + CHUNK_HEAD_BYTES, d, words, free);
        from += CHUNK_HEAD_BYTES + d * wire::SEGMENT_BYTES;
        free += d * wire::SEGMENT_WORDS;
    }
}
