// The error reply to a frame. Public: error_reply.
#![tactic(auto)]

ghost use Rattle.std.specs.Prelude.{◌≡◌, ◌∷◌, [], ◌≤◌, length};
ghost use Rattle.answers.specs.Refusals.{written_answer};
ghost use Rattle.wire.specs.Wire.{word_at, stored, word_bytes, words};
ghost use Rattle.error_reply.specs.Reply.{reply_kind_of, reply_kind_for, reply_words, error_reply_answer, error_reply_buffer};
ghost use Rattle.error_reply.specs.Internal.Length.{reply_length};

use answers::{Refusal, WriteAnswer};

// What is answered to a frame.
// Stays: the table's kinds are "none, version or chunk", and `reply_kind_of` with the theorems over it speaks of three.
#[derive(Clone, Copy)]
pub enum ReplyKind {
    None,
    Version,
    Chunk,
}

// "an answer number above 21"
const LAST_NUMBER: u32 = 21;

// "2 gives a version reply; 3, 5 to 9 and 11 to 15 a chunk reply; all others none"
static REPLY_KINDS: [ReplyKind; 22] = [
    ReplyKind::None,
    ReplyKind::None,
    ReplyKind::Version,
    ReplyKind::Chunk,
    ReplyKind::None,
    ReplyKind::Chunk,
    ReplyKind::Chunk,
    ReplyKind::Chunk,
    ReplyKind::Chunk,
    ReplyKind::Chunk,
    ReplyKind::None,
    ReplyKind::Chunk,
    ReplyKind::Chunk,
    ReplyKind::Chunk,
    ReplyKind::Chunk,
    ReplyKind::Chunk,
    ReplyKind::None,
    ReplyKind::None,
    ReplyKind::None,
    ReplyKind::None,
    ReplyKind::None,
    ReplyKind::None, // 21, reserved
];

// The reply that the table has for an answer number.
fn kind_of(number: u32) -> ReplyKind
    requires { number ≤ 21 }
    ensures { result ≡ reply_kind_of number }
{
    REPLY_KINDS[number as usize]
}

// The reply to a frame that got an answer number.
pub fn kind_for(frame: &[u8], number: u32) -> ReplyKind
    requires { (16 ≤ length frame.now) × (number ≤ 21) }
    ensures { result ≡ reply_kind_for frame.now number }
{
    // Two sides that answer each other's errors would never stop.
    if wire::word_at(frame, header::PROCEDURE_AT) == header::PROCEDURE_ERROR {
        return ReplyKind::None;
    }
    kind_of(number)
}

// How many bytes a reply has.
fn length_of(kind: ReplyKind) -> usize
    ensures { result ≡ reply_length kind }
{
    match kind {
        ReplyKind::None => 0,
        ReplyKind::Version => header::VERSION_ERROR_BYTES,
        ReplyKind::Chunk => header::CHUNK_ERROR_BYTES,
    }
}

// Writes what a version reply has around the grant: the frame's own xid and version; the procedure, the code, low and high.
fn encode_version(out: &mut [u8], frame: &[u8])
    requires { (16 ≤ length frame.now) × (28 ≤ length out.old) }
    ensures { out.new ≡ stored (stored out.old 0 (words (word_at frame.now 0 ∷ word_at frame.now 4 ∷ []))) 12 (words (4 ∷ 1 ∷ 1 ∷ 1 ∷ [])) }
{
    // Both are read before they are written: eight bytes in one move.
    let xid = wire::word_at(frame, header::XID_AT);
    let version = wire::word_at(frame, header::VERSION_AT);
    wire::put_word(out, header::XID_AT, xid);
    wire::put_word(out, header::VERSION_AT, version);
    wire::put_word(out, header::PROCEDURE_AT, header::PROCEDURE_ERROR);
    wire::put_word(out, header::CODE_AT, header::CODE_VERSION);
    wire::put_word(out, header::LOW_AT, header::VERSION);
    wire::put_word(out, header::HIGH_AT, header::VERSION);
}

// Writes what a chunk reply has around the grant: the frame's xid, version 1; the procedure, the code.
fn encode_chunk(out: &mut [u8], frame: &[u8])
    requires { (16 ≤ length frame.now) × (20 ≤ length out.old) }
    ensures { out.new ≡ stored (stored out.old 0 (words (word_at frame.now 0 ∷ 1 ∷ []))) 12 (words (4 ∷ 2 ∷ [])) }
{
    wire::put_word(out, header::XID_AT, wire::word_at(frame, header::XID_AT));
    wire::put_word(out, header::VERSION_AT, header::VERSION);
    wire::put_word(out, header::PROCEDURE_AT, header::PROCEDURE_ERROR);
    wire::put_word(out, header::CODE_AT, header::CODE_CHUNK);
}

// Writes the reply to a frame that got an answer number, if there is one: how many bytes it has.
fn write_reply(frame: &[u8], number: u32, limit: u32, out: &mut [u8]) -> Result<usize, Refusal>
    ensures answer { written_answer result ≡ error_reply_answer frame.now number limit (length out.old) }
    ensures buffer { out.new ≡ error_reply_buffer frame.now number limit out.old }
{
    if limit == 0 {
        return Err(Refusal::BadArgument);
    }
    if LAST_NUMBER < number {
        return Err(Refusal::BadArgument);
    }
    if frame.len() < header::FIXED_BYTES {
        return Ok(0);
    }
    let n = length_of(kind_for(frame, number));
    if n == 0 {
        return Ok(0);
    }
    if out.len() < n {
        return Err(Refusal::BufferShort);
    }
    // The grant stands between what each reply has around it: where two arms both end in words that are written, the compiler
    // joins their ends, byte by byte.
    if n == header::VERSION_ERROR_BYTES {
        encode_version(out, frame);
    }
    let asked = wire::word_at(frame, header::CREDIT_AT);
    wire::put_word(out, header::CREDIT_AT, credit::granted_credit(asked, limit));
    if n == header::CHUNK_ERROR_BYTES {
        encode_chunk(out, frame);
    }
    Ok(n)
}

// Writes the reply to a frame that got an answer number, if there is one, and keeps the bytes behind it.
pub fn error_reply(frame: &[u8], number: u32, limit: u32, out: &mut [u8]) -> WriteAnswer
    ensures answer { result ≡ error_reply_answer frame.now number limit (length out.old) }
    ensures buffer { out.new ≡ error_reply_buffer frame.now number limit out.old }
{
    answers::write_answer(write_reply(frame, number, limit, out))
}
