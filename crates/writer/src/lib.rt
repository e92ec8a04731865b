// The transport header, written into a lent buffer. Public: write_header; write_words, which writes from lent words.
#![tactic(auto)]

ghost use Rattle.std.specs.Prelude.{◌≡◌, true, cond, List, ℕ, ◌+◌, ◌*◌, ◌≤◌, length, take, drop, get_or};
ghost use Rattle.answers.specs.Answers.{unless_refused};
ghost use Rattle.answers.specs.Refusals.{numbered};
ghost use Rattle.wire.specs.Wire.{stored, joined, segment_bytes};
ghost use Rattle.wire.specs.Words.{segment_in, read_segment_in};
ghost use Rattle.chunk_lists.specs.Words.{reads_in, segments_in};
ghost use Rattle.header.specs.Content.{content_of, runs, reply_of};
ghost use Rattle.header.specs.Words.{write_chunks_at, xid_at, credit_at, header_in, counts_in};
ghost use Rattle.header.specs.Bytes.{entry_bytes, chunk_bytes, read_list_bytes, write_list_bytes, reply_bytes, error_bytes, fixed_bytes, procedure_of, header_bytes};
ghost use Rattle.header.specs.Limits.{total, keeps_limits};
ghost use Rattle.header.specs.Internal.Lent.{header_lent};
ghost use Rattle.header.specs.Internal.Outcomes.{outcome};
ghost use Rattle.writer.specs.Write.{bare_if_error, entries_number, write_number, write_answer, write_buffer, write_words_answer, write_words_buffer};
ghost use Rattle.writer.specs.Internal.Parts.{parts_bytes_in, header_outcome, lent_outcome};

use answers::{Refusal, WriteAnswer};
use header::{ErrorKind, Header, Kind, Lent};

// "a marker word 1, an entry, .. a marker word 0 ends it"
const ENTRY: u32 = 1;

const END: u32 = 0;

// A marker and a position, before the segment of an entry.
const ENTRY_HEAD_BYTES: usize = 8;

// "handle, length, offset", of which the offset's high word comes first: where they stand in a segment's bytes.
const LENGTH_BYTE: usize = 4;

const OFFSET_HIGH_BYTE: usize = 8;

const OFFSET_LOW_BYTE: usize = 12;

// Whether a header that is an ERROR has no entry and no reply chunk.
fn bare_if_error(kind: Kind, reads: usize, chunks: usize, present: bool) -> bool
    ensures { result ≡ bare_if_error kind reads chunks present }
{
    match kind {
        Kind::Error(_) => reads == 0 && chunks == 0 && !present,
        _ => true,
    }
}

// The bytes of a reply chunk, or of its absence.
fn reply_length(present: bool, count: usize) -> usize
    requires { count ≤ 16 }
    ensures { result ≡ cond present (8 + count * 16) 4 }
{
    if present {
        chunk_lists::CHUNK_HEAD_BYTES + count * wire::SEGMENT_BYTES
    } else {
        wire::WORD_BYTES
    }
}

// The bytes of the three parts.
fn lists_length(reads: usize, chunks: usize, segments: usize, reply: usize) -> usize
    requires { (reads ≤ 16) × (chunks ≤ 4) × (segments ≤ 16) × (reply ≤ 264) }
    ensures { result ≡ (reads * 24 + 4) + ((chunks * 8 + segments * 16 + 4) + reply) }
{
    (reads * chunk_lists::MARKED_ENTRY_BYTES + wire::WORD_BYTES)
        + ((chunks * chunk_lists::CHUNK_HEAD_BYTES
            + segments * wire::SEGMENT_BYTES
            + wire::WORD_BYTES)
            + reply)
}

// How many bytes an ERROR header takes.
#[tactic(auto, unfolding(header::specs::Bytes::error_bytes, wire::specs::Wire::word_bytes))]
fn error_length(e: ErrorKind) -> usize
    ensures { result ≡ 16 + length (error_bytes e) }
{
    match e {
        ErrorKind::Version(_, _) => header::VERSION_ERROR_BYTES,
        ErrorKind::Chunk => header::CHUNK_ERROR_BYTES,
    }
}

// How many bytes a header within its limits takes; `segments` is the sum of those of its write chunks.
fn header_length(h: Lent, segments: usize) -> usize
    requires { (keeps_limits (header_lent h) ≡ true) × (segments ≡ total (take (get_or h.words.now write_chunks_at 0) (counts_in h.words.now))) }
    ensures { result ≡ length (header_bytes (content_of (header_lent h.entry))) }
{
    let words = h.words;
    let Kind::Error(e) = h.kind else {
        return header::FIXED_BYTES
            + lists_length(
                words[header::READ_COUNT_AT] as usize,
                words[header::WRITE_CHUNKS_AT] as usize,
                segments,
                reply_length(h.present, words[header::REPLY_COUNT_AT] as usize),
            );
    };
    error_length(e)
}

// Whether the first n read entries may be written.
fn check_entries(words: &[u32; 238], n: usize) -> Result<(), Refusal>
    requires { n ≤ 16 }
    ensures { numbered result ≡ outcome (entries_number (take n (reads_in words.now)) 0) tt }
{
    for k in 0..n {
        let x = chunk_lists::read_segment_of(words, k);
        if x.position % chunk_lists::POSITION_UNIT != 0 {
            return Err(Refusal::PositionUnaligned);
        }
    }
    Ok(())
}

// Whether a header may be written into `room` bytes, and how many it takes.
fn check_header(h: Lent, room: usize) -> Result<usize, Refusal>
    ensures { numbered result ≡ header_outcome (header_lent h.entry) room }
{
    let words = h.words;
    let reads = words[header::READ_COUNT_AT] as usize;
    let chunks = words[header::WRITE_CHUNKS_AT] as usize;
    let replies = words[header::REPLY_COUNT_AT] as usize;
    if !bare_if_error(h.kind, reads, chunks, h.present) {
        return Err(Refusal::KindAndLists);
    }
    let segments = header::total_count(words, chunks);
    if !header::within_limits(reads, chunks, segments, h.present, replies) {
        return Err(Refusal::OverLimit);
    }
    check_entries(words, reads)?;
    let length = header_length(h, segments);
    if room < length {
        return Err(Refusal::BufferShort);
    }
    Ok(length)
}

// Writes the segment in the words from `from` on. Each word is read where it is written: the compiler then stores it whole.
fn encode_segment(out: &mut [u8], k: usize, words: &[u32], from: usize)
    requires { (k + 16 ≤ length out.old) × (from + 4 ≤ length words.now) }
    ensures { out.new ≡ stored out.old k (segment_bytes (segment_in (drop from words.now))) }
{
    wire::put_word(out, k, words[from + wire::HANDLE_AT]);
    wire::put_word(out, k + LENGTH_BYTE, words[from + wire::LENGTH_AT]);
    wire::put_word(
        out,
        k + OFFSET_HIGH_BYTE,
        words[from + wire::OFFSET_HIGH_AT],
    );
    wire::put_word(out, k + OFFSET_LOW_BYTE, words[from + wire::OFFSET_LOW_AT]);
}

// Writes a marker and the read segment in the words from `from` on.
fn encode_entry(out: &mut [u8], k: usize, words: &[u32], from: usize)
    requires { (k + 24 ≤ length out.old) × (from + 6 ≤ length words.now) }
    ensures { out.new ≡ stored out.old k (entry_bytes (read_segment_in (drop from words.now))) }
{
    wire::put_word(out, k, ENTRY);
    wire::put_word(out, k + wire::WORD_BYTES, words[from + wire::POSITION_AT]);
    encode_segment(out, k + ENTRY_HEAD_BYTES, words, from + wire::TARGET_AT);
}

// Writes the n entries of the read list and its end.
fn encode_read_list(out: &mut [u8], k: usize, words: &[u32], n: usize)
    requires { (k + 4 + n * 24 ≤ length out.old) × (96 ≤ length words.now) × (n ≤ 16) }
    ensures { out.new ≡ stored out.old k (read_list_bytes (take n (reads_in words.now))) }
{
    for j in 0..n {
        encode_entry(
            out,
            k + j * chunk_lists::MARKED_ENTRY_BYTES,
            words,
            j * wire::READ_SEGMENT_WORDS,
        );
    }
    wire::put_word(out, k + n * chunk_lists::MARKED_ENTRY_BYTES, END);
}

// Stays: beside encode_read_list, which writes each entry's marker and position in the same step, where the compiler stores them whole.
// Writes n segments, from the i-th place of those at word `from` on.
fn encode_segments(out: &mut [u8], k: usize, words: &[u32], from: usize, i: usize, n: usize)
    requires { (k + n * 16 ≤ length out.old) × (from + 64 ≤ length words.now) × (i + n ≤ 16) }
    ensures { out.new ≡ stored out.old k (joined segment_bytes (take n (drop i (segments_in from words.now)))) }
{
    for j in 0..n {
        encode_segment(
            out,
            k + j * wire::SEGMENT_BYTES,
            words,
            from + (i + j) * wire::SEGMENT_WORDS,
        );
    }
}

// Writes a chunk behind its marker: a count and its segments.
fn encode_chunk(out: &mut [u8], k: usize, words: &[u32], from: usize, i: usize, n: usize)
    requires { (k + 8 + n * 16 ≤ length out.old) × (from + 64 ≤ length words.now) × (i + n ≤ 16) }
    ensures { out.new ≡ stored out.old k (chunk_bytes (take n (drop i (segments_in from words.now)))) }
{
    wire::put_word(out, k, ENTRY);
    wire::put_word(out, k + wire::WORD_BYTES, n as u32);
    encode_segments(out, k + chunk_lists::CHUNK_HEAD_BYTES, words, from, i, n);
}

// Writes the n chunks of the write list and its end; answers where it ends.
fn encode_write_list(out: &mut [u8], k: usize, words: &[u32; 238], n: usize) -> usize
    requires { (n ≤ 4) × (total (take n (counts_in words.now)) ≤ 16) × (k + n * 8 + total (take n (counts_in words.now)) * 16 + 4 ≤ length out.old) }
    ensures { (result ≡ k + n * 8 + total (take n (counts_in words.now)) * 16 + 4) × (out.new ≡ stored out.old k (write_list_bytes (runs (take n (counts_in words.now)) (segments_in 96 words.now)))) }
{
    let mut end = k;
    let mut used = 0;
    for count in &words[header::WRITE_COUNTS_AT..header::WRITE_COUNTS_AT + n] {
        let d = *count as usize;
        encode_chunk(out, end, words, header::WRITES_AT, used, d);
        end += chunk_lists::CHUNK_HEAD_BYTES + d * wire::SEGMENT_BYTES;
        used += d;
    }
    wire::put_word(out, end, END);
    end + wire::WORD_BYTES
}

// Writes the reply chunk, or its absence; answers where it ends.
fn encode_reply_chunk(
    out: &mut [u8],
    k: usize,
    words: &[u32; 238],
    present: bool,
    n: usize,
) -> usize
    requires { (n ≤ 16) × (k + cond present (8 + n * 16) 4 ≤ length out.old) }
    ensures { (result ≡ k + cond present (8 + n * 16) 4) × (out.new ≡ stored out.old k (reply_bytes (reply_of present (take n (segments_in 160 words.now))))) }
{
    if present {
        encode_chunk(out, k, words, header::REPLY_AT, 0, n);
        return k + chunk_lists::CHUNK_HEAD_BYTES + n * wire::SEGMENT_BYTES;
    }
    wire::put_word(out, k, END);
    k + wire::WORD_BYTES
}

// Writes what stands behind the fixed words of an ERROR header; answers where it ends.
#[tactic(auto, unfolding(header::specs::Bytes::error_bytes, wire::specs::Wire::word_bytes))]
fn encode_error(out: &mut [u8], e: ErrorKind) -> usize
    requires { 16 + length (error_bytes e) ≤ length out.old }
    ensures { (result ≡ 16 + length (error_bytes e)) × (out.new ≡ stored out.old 16 (error_bytes e)) }
{
    match e {
        ErrorKind::Version(low, high) => {
            wire::put_word(out, header::CODE_AT, header::CODE_VERSION);
            wire::put_word(out, header::LOW_AT, low);
            wire::put_word(out, header::HIGH_AT, high);
            header::VERSION_ERROR_BYTES
        }
        ErrorKind::Chunk => {
            wire::put_word(out, header::CODE_AT, header::CODE_CHUNK);
            header::CHUNK_ERROR_BYTES
        }
    }
}

fn procedure_of(kind: Kind) -> u32
    ensures { result ≡ procedure_of kind }
{
    match kind {
        Kind::Msg => header::PROCEDURE_MSG,
        Kind::Nomsg => header::PROCEDURE_NOMSG,
        Kind::Error(_) => header::PROCEDURE_ERROR,
    }
}

// Writes the fixed words: xid and credit last, each read where it is written, as in encode_segment. A computed word written
// behind them would keep the compiler from storing them whole.
fn encode_fixed(out: &mut [u8], words: &[u32; 238], kind: Kind)
    requires { 16 ≤ length out.old }
    ensures { out.new ≡ stored out.old 0 (fixed_bytes kind (get_or words.now xid_at 0) (get_or words.now credit_at 0)) }
{
    wire::put_word(out, header::VERSION_AT, header::VERSION);
    wire::put_word(out, header::PROCEDURE_AT, procedure_of(kind));
    wire::put_word(out, header::XID_AT, words[header::XID_WORD_AT]);
    wire::put_word(out, header::CREDIT_AT, words[header::CREDIT_WORD_AT]);
}

// Writes the three parts behind the fixed words; answers where they end.
fn encode_lists(out: &mut [u8], h: Lent) -> usize
    requires { (keeps_limits (header_lent h) ≡ true) × (16 + length (parts_bytes_in h.words.now h.present) ≤ length out.old) }
    ensures { (result ≡ 16 + length (parts_bytes_in h.entry.words.now h.entry.present)) × (out.new ≡ stored out.old 16 (parts_bytes_in h.entry.words.now h.entry.present)) }
{
    let words = h.words;
    let n = words[header::READ_COUNT_AT] as usize;
    encode_read_list(out, header::FIXED_BYTES, words, n);
    let end = encode_write_list(
        out,
        header::EMPTY_READS_BYTES + n * chunk_lists::MARKED_ENTRY_BYTES,
        words,
        words[header::WRITE_CHUNKS_AT] as usize,
    );
    encode_reply_chunk(
        out,
        end,
        words,
        h.present,
        words[header::REPLY_COUNT_AT] as usize,
    )
}

// Writes a header that has passed its checks.
fn encode_header(out: &mut [u8], h: Lent)
    requires { (keeps_limits (header_lent h) ≡ true) × (length (header_bytes (content_of (header_lent h))) ≤ length out.old) }
    ensures { out.new ≡ stored out.old 0 (header_bytes (content_of (header_lent h.entry))) }
{
    encode_fixed(out, h.words, h.kind);
    match h.kind {
        Kind::Error(e) => encode_error(out, e),
        _ => encode_lists(out, h),
    };
}

// Writes the header that the words hold at the front of a buffer, and keeps the bytes behind it; answers how many bytes it has.
fn write_lent(words: &[u32; 238], out: &mut [u8]) -> Result<usize, Refusal>
    ensures outcome { numbered result ≡ lent_outcome (header_in words.now) (length out.old) }
    ensures buffer { out.new ≡ write_words_buffer (header_in words.now) out.old }
{
    let h = header::header_in(words).ok_or(Refusal::BadArgument)?;
    let length = check_header(h, out.len())?;
    encode_header(out, h);
    Ok(length)
}

// Writes the header that the words hold at the front of a buffer, keeps the bytes behind it, and stores how many bytes it has.
// Stays: README has it answer a number, as `eos_write_header` hands on.
pub fn write_words(words: &[u32; 238], out: &mut [u8], size: &mut usize) -> u32
    ensures answer { result ≡ (write_words_answer (header_in words.now) (length out.old)).number }
    ensures size { size.new ≡ unless_refused (write_words_answer (header_in words.now) (length out.old)).number (write_words_answer (header_in words.now) (length out.old)).length size.old }
    ensures buffer { out.new ≡ write_words_buffer (header_in words.now) out.old }
{
    match write_lent(words, out) {
        Ok(length) => {
            *size = length;
            0
        }
        Err(refusal) => u32::from(refusal),
    }
}

// The same of a header by value.
pub fn write_header(h: Header, out: &mut [u8]) -> WriteAnswer
    ensures answer { result ≡ write_answer h (length out.old) }
    ensures buffer { out.new ≡ write_buffer h out.old }
{
    answers::write_answer(write_lent(&header::words_of(h), out))
}
