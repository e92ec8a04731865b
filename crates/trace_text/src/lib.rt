// A report's lines: what a frame of a trace gets, and the text of it. Internal to the library.
#![tactic(auto)]

ghost use Rattle.std.specs.Prelude.{◌≡◌, ◌++◌, ◌+◌, ◌≤◌, length};
ghost use Rattle.wire.specs.Wire.{stored};
ghost use Rattle.error_reply.specs.Reply.{reply_kind_for};
ghost use Rattle.trace_text.specs.Verdict.{verdict_of};
ghost use Rattle.trace_text.specs.Text.{decimal, heading, reply_text, verdict_text, bad_text, sums_text, too_long};

use error_reply::ReplyKind;

// What a frame gets: its answer number, the bytes of its payload, the reply.
// Stays: the report prints the number, and the laws of the report speak of it.
#[derive(Clone, Copy)]
pub struct Verdict {
    pub answer: u32,
    pub payload: usize,
    pub reply: ReplyKind,
}

// The sums over the lines that ended.
#[derive(Clone, Copy, Default)]
pub struct Sums {
    pub lines: u64,
    pub accepted: u64,
    pub refused: u64,
    pub bad: u64,
    pub payload: u64,
}

// The reply to a frame that got an answer number; none to a frame under 16 bytes.
fn reply_to(frame: &[u8], number: u32) -> ReplyKind
    requires { number ≤ 21 }
    ensures { result ≡ reply_kind_for frame.now number }
{
    if frame.len() < header::FIXED_BYTES {
        return ReplyKind::None;
    }
    error_reply::kind_for(frame, number)
}

// What a frame gets.
pub fn judge(frame: &[u8]) -> Verdict
    ensures { result ≡ verdict_of frame.now }
{
    match reader::check_frame(frame) {
        Ok(shape) => Verdict {
            answer: 0,
            payload: frame.len() - shape.end,
            reply: ReplyKind::None,
        },
        Err(refusal) => {
            let answer = u32::from(refusal);
            Verdict {
                answer,
                payload: 0,
                reply: reply_to(frame, answer),
            }
        }
    }
}

// Each of the following writes from `to` on and answers where its text ends.
// Stays: `write!` with a Display takes some 290 ns a line, where by hand a line is read, judged and written in 65.
// Stays: `out` and `to`, and no struct that holds the buffer: each function on one would ensure besides that it still holds the caller's.
fn put_text(out: &mut [u8], to: usize, text: &[u8]) -> usize
    requires { to + length text.now ≤ length out.old }
    ensures buffer { out.new ≡ stored out.old to text.now }
    ensures end { result ≡ to + length text.now }
{
    let end = to + text.len();
    out[to..end].copy_from_slice(text);
    end
}

// How many digits a number has. (Written from the last digit on, a number needs to know where that stands.)
fn places(n: u64) -> usize
    ensures { result ≡ length (decimal n) }
{
    n.checked_ilog10().unwrap_or(0) as usize + 1
}

fn put_decimal(out: &mut [u8], to: usize, n: u64) -> usize
    requires { to + length (decimal n) ≤ length out.old }
    ensures buffer { out.new ≡ stored out.old to (decimal n) }
    ensures end { result ≡ to + length (decimal n) }
{
    let end = to + places(n);
    let mut m = n;
    let mut i = end;
    // Stays: a `for` over the places takes 5 % more instructions and 9 % more time in a report on short lines.
    while 10 <= m {
        i -= 1;
        out[i] = b'0' + (m % 10) as u8;
        m /= 10;
    }
    out[to] = b'0' + m as u8;
    end
}

// A text and a number behind it.
fn put_number(out: &mut [u8], to: usize, text: &[u8], n: u64) -> usize
    requires { to + (length text.now + length (decimal n)) ≤ length out.old }
    ensures buffer { out.new ≡ stored out.old to (text.now ++ decimal n) }
    ensures end { result ≡ to + (length text.now + length (decimal n)) }
{
    let end = put_text(out, to, text);
    put_decimal(out, end, n)
}

fn put_reply(out: &mut [u8], to: usize, reply: ReplyKind) -> usize
    requires { to + length (reply_text reply) ≤ length out.old }
    ensures buffer { out.new ≡ stored out.old to (reply_text reply) }
    ensures end { result ≡ to + length (reply_text reply) }
{
    match reply {
        ReplyKind::None => put_text(out, to, b" none\n"),
        ReplyKind::Version => put_text(out, to, b" vers\n"),
        ReplyKind::Chunk => put_text(out, to, b" chunk\n"),
    }
}

// The first line of a report.
pub fn put_heading(out: &mut [u8]) -> usize
    requires { 27 ≤ length out.old }
    ensures buffer { out.new ≡ stored out.old 0 heading }
    ensures end { result ≡ length heading }
{
    put_text(out, 0, b"frame answer payload reply\n")
}

// The line of a frame.
pub fn put_verdict(out: &mut [u8], to: usize, number: u64, v: Verdict) -> usize
    requires { to + length (verdict_text number v) ≤ length out.old }
    ensures buffer { out.new ≡ stored out.old to (verdict_text number v) }
    ensures end { result ≡ to + length (verdict_text number v) }
{
    let a = put_decimal(out, to, number);
    let b = put_number(out, a, b" ", v.answer as u64);
    let c = put_number(out, b, b" ", v.payload as u64);
    let reply = v.reply;
    put_reply(out, c, reply)
}

// The line of a bad line.
pub fn put_bad(out: &mut [u8], to: usize, number: u64) -> usize
    requires { to + length (bad_text number) ≤ length out.old }
    ensures buffer { out.new ≡ stored out.old to (bad_text number) }
    ensures end { result ≡ to + length (bad_text number) }
{
    let end = put_decimal(out, to, number);
    put_text(out, end, b" bad\n")
}

// The last line of a report.
pub fn put_sums(out: &mut [u8], to: usize, t: Sums) -> usize
    requires { to + length (sums_text t) ≤ length out.old }
    ensures buffer { out.new ≡ stored out.old to (sums_text t) }
    ensures end { result ≡ to + length (sums_text t) }
{
    let a = put_number(out, to, b"accepted ", t.accepted);
    let b = put_number(out, a, b" refused ", t.refused);
    let c = put_number(out, b, b" bad ", t.bad);
    let d = put_number(out, c, b" payload ", t.payload);
    put_text(out, d, b"\n")
}

// What stands in place of the last line where the trace has too many lines.
pub fn put_too_long(out: &mut [u8], to: usize) -> usize
    requires { to + 9 ≤ length out.old }
    ensures buffer { out.new ≡ stored out.old to too_long }
    ensures end { result ≡ to + length too_long }
{
    put_text(out, to, b"too long\n")
}
