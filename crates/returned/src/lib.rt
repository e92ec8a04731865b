// What a reply says was put into the chunks that a call offered. Public: returned; returned_words, of headers that are lent.
#![tactic(auto)]

ghost use Rattle.std.specs.Prelude.{◌≡◌, not, ◌&&◌, List, ◌+◌, ◌≤◌, take, drop, get_or};
ghost use Rattle.std.proofs.Math.Option.{none, some};
ghost use Rattle.answers.specs.Refusals.{numbered};
ghost use Rattle.chunk_lists.specs.Words.{segments_in};
ghost use Rattle.header.specs.Limits.{total};
ghost use Rattle.header.specs.Words.{reply_count_at, header_in, counts_in};
ghost use Rattle.header.specs.Internal.Lent.{header_lent};
ghost use Rattle.returned.specs.Returned.{any, is_error, non_empty, lacks_reply_chunk, reply_chunk_filled_in_msg, returned_answer, returned_words_number, returned_words_places};
ghost use Rattle.returned.specs.Internal.Parts.{segment_wrong, chunk_check, writes_check, reply_in, reply_check, heads_wrong, headers_outcome, lent_outcome};

use answers::Refusal;
use header::{Header, Kind, Lent};
use wire::{Item, Segment};

// Where the number of the reply chunk stands, behind those of the write chunks.
const REPLY_LANDED_AT: usize = chunk_lists::MAX_WRITE_CHUNKS;

// "the bytes landed in each write chunk and in the reply chunk"
// Stays: README has `returned` with this answer, its number beside what landed.
#[derive(Clone, Copy)]
pub struct ReturnedAnswer {
    pub writes: [u64; 4],
    pub reply: u64,
    pub number: u32,
}

// Whether a segment may come back so, behind segments of its chunk that are all full or not.
fn segment_fits(sent: Segment, back: Segment, full: bool) -> bool
    ensures { result ≡ not (segment_wrong full (record { sent = sent; back = back })) }
{
    sent.handle == back.handle
        && sent.offset == back.offset
        && back.length <= sent.length
        && (full || back.length == 0)
}

// Compares n segments, from the i-th place of those at word `from` on; answers the bytes landed in them. No segment is longer than
// the one sent, so all are full where the sums are equal.
fn check_chunk(
    sent: &[u32; 238],
    reply: &[u32; 238],
    from: usize,
    i: usize,
    n: usize,
) -> Option<u64>
    requires { (from + 64 ≤ 238) × (i + n ≤ 16) }
    ensures { result ≡ chunk_check (record { sent = take n (drop i (segments_in from sent.now)); back = take n (drop i (segments_in from reply.now)) }) }
{
    let mut offered: u64 = 0;
    let mut landed: u64 = 0;
    for j in 0..n {
        let x = Segment::load(sent, from + (i + j) * wire::SEGMENT_WORDS);
        let y = Segment::load(reply, from + (i + j) * wire::SEGMENT_WORDS);
        if !segment_fits(x, y, landed == offered) {
            return None;
        }
        offered += x.length as u64;
        landed += y.length as u64;
    }
    Some(landed)
}

// Compares the n write chunks; answers the bytes landed in each, and 0 for the reply chunk.
fn check_writes(sent: &[u32; 238], reply: &[u32; 238], n: usize) -> Option<[u64; 5]>
    requires { (n ≤ 4) × (total (take n (counts_in sent.now)) ≤ 16) × (total (take n (counts_in reply.now)) ≤ 16) }
    ensures { result ≡ writes_check n sent.now reply.now }
{
    let mut landed = [0; 5];
    let mut used = 0;
    // Stays: three rows at one index; three iterators zipped are no plainer.
    for k in 0..n {
        let d = sent[header::WRITE_COUNTS_AT + k];
        if d != reply[header::WRITE_COUNTS_AT + k] {
            return None;
        }
        landed[k] = check_chunk(sent, reply, header::WRITES_AT, used, d as usize)?;
        used += d as usize;
    }
    Some(landed)
}

// Whether a reply of this kind may come without the reply chunk.
fn may_lack_reply(kind: Kind) -> bool
    ensures { result ≡ not (lacks_reply_chunk kind none) }
{
    !matches!(kind, Kind::Nomsg)
}

// Whether bytes may have landed in the reply chunk of a reply of this kind.
fn may_fill_reply(kind: Kind) -> bool
    ensures { (d : List Segment) → reply_chunk_filled_in_msg kind (some d) ≡ (not result && any non_empty d) }
{
    !matches!(kind, Kind::Msg)
}

// Compares the reply chunk; answers the bytes landed in it.
fn check_reply(sent: Lent, reply: Lent) -> Option<u64>
    requires { (get_or sent.words.now reply_count_at 0 ≤ 16) × (get_or reply.words.now reply_count_at 0 ≤ 16) }
    ensures { result ≡ reply_check reply.entry.kind (reply_in sent.entry) (reply_in reply.entry) }
{
    if !reply.present {
        return may_lack_reply(reply.kind).then_some(0);
    }
    if !sent.present {
        return None;
    }
    let n = sent.words[header::REPLY_COUNT_AT];
    if n != reply.words[header::REPLY_COUNT_AT] {
        return None;
    }
    let landed = check_chunk(sent.words, reply.words, header::REPLY_AT, 0, n as usize)?;
    if landed != 0 && !may_fill_reply(reply.kind) {
        return None;
    }
    Some(landed)
}

fn is_error(kind: Kind) -> bool
    ensures { result ≡ is_error kind }
{
    matches!(kind, Kind::Error(_))
}

// Whether two headers agree in what their chunks do not say.
fn heads_fit(sent: Lent, reply: Lent) -> bool
    ensures { result ≡ not (heads_wrong (header_lent sent.entry) (header_lent reply.entry)) }
{
    sent.words[header::XID_WORD_AT] == reply.words[header::XID_WORD_AT]
        && reply.words[header::READ_COUNT_AT] == 0
        && !is_error(sent.kind)
        && !is_error(reply.kind)
}

// Compares two headers; answers the bytes landed in each write chunk and in the reply chunk.
fn check_headers(sent: Lent, reply: Lent) -> Result<[u64; 5], Refusal>
    ensures { numbered result ≡ headers_outcome (header_lent sent.entry) (header_lent reply.entry) }
{
    if !sent.keeps_limits() {
        return Err(Refusal::OverLimit);
    }
    if !reply.keeps_limits() {
        return Err(Refusal::OverLimit);
    }
    if !heads_fit(sent, reply) {
        return Err(Refusal::ReplyMismatch);
    }
    let call = sent.words;
    let answer = reply.words;
    let n = call[header::WRITE_CHUNKS_AT];
    if n != answer[header::WRITE_CHUNKS_AT] {
        return Err(Refusal::ReplyMismatch);
    }
    let writes = check_writes(call, answer, n as usize);
    let mut landed = writes.ok_or(Refusal::ReplyMismatch)?;
    landed[REPLY_LANDED_AT] = check_reply(sent, reply).ok_or(Refusal::ReplyMismatch)?;
    Ok(landed)
}

// The same of headers in words.
fn check_lent(sent: &[u32; 238], reply: &[u32; 238]) -> Result<[u64; 5], Refusal>
    ensures { numbered result ≡ lent_outcome (header_in sent.now) (header_in reply.now) }
{
    let sent = header::header_in(sent).ok_or(Refusal::BadArgument)?;
    let reply = header::header_in(reply).ok_or(Refusal::BadArgument)?;
    check_headers(sent, reply)
}

// Compares the header that was sent and the reply's, and stores the bytes landed in each write chunk and in the reply chunk.
// Stays: README has it answer a number, as `eos_returned` hands on.
pub fn returned_words(sent: &[u32; 238], reply: &[u32; 238], landed: &mut [u64; 5]) -> u32
    ensures answer { result ≡ returned_words_number (header_in sent.now) (header_in reply.now) }
    ensures landed { landed.new ≡ returned_words_places (header_in sent.now) (header_in reply.now) landed.old }
{
    match check_lent(sent, reply) {
        Ok(found) => {
            *landed = found;
            0
        }
        Err(refusal) => u32::from(refusal),
    }
}

// The same of headers by value.
pub fn returned(sent: Header, reply: Header) -> ReturnedAnswer
    ensures { result ≡ returned_answer sent reply }
{
    let outcome = check_lent(&header::words_of(sent), &header::words_of(reply));
    let landed = outcome.unwrap_or([0; 5]);
    let mut writes = [0; 4];
    writes.copy_from_slice(&landed[..REPLY_LANDED_AT]);
    ReturnedAnswer {
        writes,
        reply: landed[REPLY_LANDED_AT],
        number: answers::number(outcome),
    }
}
