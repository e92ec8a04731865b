// The transport header of a frame, read. Public: read_header, payload; decode_header, which reads into lent words.
#![tactic(auto)]

ghost use Rattle.std.specs.Prelude.{◌≡◌, ℕ, ◌≤◌, cond, List, length, drop, eqb, Ok};
ghost use Rattle.answers.specs.Refusals.{numbered};
ghost use Rattle.wire.specs.Wire.{word_at, stored};
ghost use Rattle.chunk_lists.specs.Parsed.{done};
ghost use Rattle.chunk_lists.specs.Words.{reads_words};
ghost use Rattle.header.specs.Content.{Content};
ghost use Rattle.header.specs.declared.Kind.TheVariants as kinds;
ghost use Rattle.reader.specs.Frame.{read_frame, read_answer, read_number, read_words, payload_of, three_parts, error_body};
ghost use Rattle.reader.specs.Internal.Shape.{error_shape, frame_check, ended_check};

use answers::Refusal;
use header::{ErrorKind, Header, Kind};
use wire::{ReadSegment, Segment};

// Stays: README has `read_header` with this answer, its number beside the header.
#[derive(Clone, Copy)]
pub struct ReadAnswer {
    pub header: Header,
    pub number: u32,
}

// A frame that was checked: how many entries its lists have, and where its header ends.
#[derive(Clone, Copy)]
pub struct Shape {
    pub kind: Kind,
    pub reads: usize,
    pub chunks: usize,
    // The segments of the reply chunk, if there is one.
    pub reply: Option<usize>,
    pub end: usize,
}

// Checks the three parts behind the fixed words.
fn check_lists(s: &[u8], kind: Kind) -> Result<Shape, Refusal>
    requires { 16 ≤ length s.now }
    ensures { numbered result ≡ frame_check (length s.now) (three_parts kind (word_at s.now 0) (word_at s.now 8) (drop 16 s.now)) }
{
    let reads = chunk_lists::check_read_list(&s[header::FIXED_BYTES..])?;
    let w = s.len() - reads.left;
    let writes = chunk_lists::check_write_list(&s[w..])?;
    let p = s.len() - writes.left;
    match chunk_lists::check_chunk(&s[p..], 1, chunk_lists::MAX_REPLY_SEGMENTS)? {
        None => Ok(Shape {
            kind,
            reads: reads.entries,
            chunks: writes.entries,
            reply: None,
            end: p + wire::WORD_BYTES,
        }),
        Some(m) => Ok(Shape {
            kind,
            reads: reads.entries,
            chunks: writes.entries,
            reply: Some(m),
            end: p + chunk_lists::CHUNK_HEAD_BYTES + m * wire::SEGMENT_BYTES,
        }),
    }
}

// An ERROR header has no lists.
fn error_shape(kind: ErrorKind, end: usize) -> Shape
    ensures { result ≡ error_shape kind end }
{
    Shape {
        kind: Kind::Error(kind),
        reads: 0,
        chunks: 0,
        reply: None,
        end,
    }
}

// Checks what stands behind the fixed words of an ERROR header.
fn check_error(s: &[u8]) -> Result<Shape, Refusal>
    requires { 16 ≤ length s.now }
    ensures { numbered result ≡ frame_check (length s.now) (error_body (word_at s.now 0) (word_at s.now 8) (drop 16 s.now)) }
{
    let code = wire::first_word(&s[header::FIXED_BYTES..])?;
    if code == header::CODE_VERSION {
        if s.len() < header::VERSION_ERROR_BYTES {
            return Err(Refusal::EndsInsideField);
        }
        return Ok(error_shape(
            ErrorKind::Version(
                wire::word_at(s, header::LOW_AT),
                wire::word_at(s, header::HIGH_AT),
            ),
            header::VERSION_ERROR_BYTES,
        ));
    }
    if code == header::CODE_CHUNK {
        return Ok(error_shape(ErrorKind::Chunk, header::CHUNK_ERROR_BYTES));
    }
    Err(Refusal::OtherErrorCode)
}

// Refuses bytes behind the header.
fn check_nothing_behind(shape: Shape, size: usize) -> Result<Shape, Refusal>
    ensures { numbered result ≡ ended_check size (Ok shape) }
{
    if shape.end != size {
        return Err(Refusal::BytesBehind);
    }
    Ok(shape)
}

// The kind of a header with lists.
fn lists_kind(procedure: u32) -> Kind
    ensures { result ≡ cond (eqb procedure 0) Kind.Msg Kind.Nomsg }
{
    if procedure == header::PROCEDURE_MSG {
        return Kind::Msg;
    }
    Kind::Nomsg
}

// Checks a frame.
pub fn check_frame(s: &[u8]) -> Result<Shape, Refusal>
    ensures { numbered result ≡ frame_check (length s.now) (read_frame s.now) }
{
    let size = s.len();
    if size < header::FIXED_BYTES {
        return Err(Refusal::ShortFrame);
    }
    if wire::word_at(s, header::VERSION_AT) != header::VERSION {
        return Err(Refusal::OtherVersion);
    }
    let procedure = wire::word_at(s, header::PROCEDURE_AT);
    // Asked before the tests: behind them the compiler would take the word byte by byte.
    let kind = lists_kind(procedure);
    if procedure == header::PROCEDURE_DONE {
        return Err(Refusal::DoneReceived);
    }
    if procedure == header::PROCEDURE_ERROR {
        return check_nothing_behind(check_error(s)?, size);
    }
    if header::PROCEDURE_NOMSG < procedure {
        return Err(Refusal::OtherProcedure);
    }
    // The one place that walks the lists, for both kinds: the walk is then compiled in place.
    let shape = check_lists(s, kind)?;
    if procedure == header::PROCEDURE_MSG {
        return Ok(shape);
    }
    check_nothing_behind(shape, size)
}

// Decodes the header of a frame into the words that the caller lends. A frame that is refused leaves them as they were.
// Stays: README has it answer a number, as `eos_read_header` hands on.
pub fn decode_header(s: &[u8], words: &mut [u32; 238]) -> u32
    ensures answer { result ≡ read_number (read_frame s.now) }
    ensures words { words.new ≡ read_words (read_frame s.now) words.old }
{
    let walk = check_frame(s);
    let Ok(shape) = walk else {
        return answers::number(walk);
    };
    let kind = shape.kind;
    let n = shape.reads;
    let chunks = shape.chunks;
    let m = shape.reply.unwrap_or(0);
    *words = [0u32; 238];
    // The numbers before the lists, whose loops then have none of them to keep.
    words[header::KIND_WORD_AT] = header::kind_number(kind);
    words[header::LOW_WORD_AT] = header::low_of(kind);
    words[header::HIGH_WORD_AT] = header::high_of(kind);
    words[header::READ_COUNT_AT] = n as u32;
    words[header::WRITE_CHUNKS_AT] = chunks as u32;
    words[header::REPLY_PRESENT_AT] = u32::from(shape.reply.is_some());
    words[header::REPLY_COUNT_AT] = m as u32;
    words[header::XID_WORD_AT] = wire::word_at(s, header::XID_AT);
    words[header::CREDIT_WORD_AT] = wire::word_at(s, header::CREDIT_AT);
    let w = header::EMPTY_READS_BYTES + n * chunk_lists::MARKED_ENTRY_BYTES;
    let p = shape.end - m * wire::SEGMENT_BYTES;
    chunk_lists::decode_segments::<ReadSegment>(&s[header::FIXED_BYTES..], 0, n, &mut words[..], 0);
    chunk_lists::decode_write_list(
        &s[w..],
        chunks,
        &mut words[..],
        header::WRITES_AT,
        header::WRITE_COUNTS_AT,
    );
    chunk_lists::decode_segments::<Segment>(s, p, m, &mut words[..], header::REPLY_AT);
    0
}

// Decodes the read list of a frame that was checked into the words, from the first on.
pub fn decode_frame_reads(s: &[u8], shape: Shape, words: &mut [u32])
    requires { (frame_check (length s.now) (read_frame s.now) ≡ Ok shape) × (96 ≤ length words.old) }
    ensures { (c : Content) (payload : List ℕ) → read_frame s.now ≡ done c payload → words.new ≡ stored words.old 0 (reads_words c.reads) }
{
    chunk_lists::decode_segments::<ReadSegment>(
        &s[header::FIXED_BYTES..],
        0,
        shape.reads,
        words,
        0,
    );
}

// Reads the header of a frame.
pub fn read_header(s: &[u8]) -> ReadAnswer
    ensures { result ≡ read_answer (read_frame s.now) }
{
    let mut words = [0u32; 238];
    let number = decode_header(s, &mut words);
    ReadAnswer {
        header: header::header_of(&words),
        number,
    }
}

// The inline payload of a frame: what stands behind the header of an accepted MSG.
pub fn payload(s: &[u8]) -> &[u8]
    ensures { result.now ≡ payload_of (read_frame s.now) }
{
    let Ok(shape) = check_frame(s) else {
        return &s[0..0];
    };
    &s[shape.end..]
}
