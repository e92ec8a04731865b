// A trace replayed: lines of hexadecimal in, a report out, in blocks of any size. Public: start, feed, finish.
#![tactic(auto)]

ghost use Rattle.std.specs.Prelude.{◌≡◌, ◌+◌, ◌*◌, ◌<◌, ◌≤◌, length};
ghost use Rattle.wire.specs.Wire.{stored};
ghost use Rattle.trace_line.specs.Line.{frame_in};
ghost use Rattle.trace_text.specs.Text.{heading};
ghost use Rattle.trace.specs.Report.{line_text};
ghost use Rattle.trace.specs.Feeding.{start_state, has_last_line, feed_answer, feed_reading, feed_buffer, finish_text};
ghost use Rattle.trace.specs.Internal.Turns.{Turns, ended_as, plus_line, verdict_in};

use trace_line::{DigitTable, Line};
use trace_text::{Sums, Verdict};

// "inputs have at most 1,000,000 lines"
pub const MAX_LINES: u64 = 1000000;

// The room with which `feed` takes another byte: a line of the report for a frame has at most 7 digits, 2, 4 and a reply.
pub const MAX_LINE_BYTES: usize = 22;

// A replay between two blocks: the sums over the lines that ended, the line that has begun, and whether the trace is too long.
// The digits of that line are in the frame buffer.
#[derive(Clone, Copy)]
pub struct TraceState {
    pub sums: Sums,
    pub line: Line,
    // Stays: the documented calls start, feed and finish take and answer this struct.
    pub stopped: bool,
}

// A block that was fed: the state after it, how many of its bytes were taken, and how many bytes of the report were written.
#[derive(Clone, Copy)]
pub struct FeedAnswer {
    pub state: TraceState,
    pub used: usize,
    pub written: usize,
}

// A line that ended: the sums with it, and where its line of the report ends.
#[derive(Clone, Copy)]
pub struct Ended {
    pub sums: Sums,
    pub to: usize,
}

// A part of a block that was taken: the state after it, how many bytes it has, and where the report ends.
#[derive(Clone, Copy)]
pub struct Turn {
    pub state: TraceState,
    pub used: usize,
    pub to: usize,
}

// The sums with one line more, by what it got; a bad line gets nothing.
fn with_line(t: Sums, verdict: Option<Verdict>) -> Sums
    requires { t.lines < 1000000 }
    ensures { result ≡ plus_line t verdict }
{
    let lines = t.lines + 1;
    match verdict {
        None => Sums {
            lines,
            bad: t.bad.wrapping_add(1),
            ..t
        },
        Some(v) if v.answer == 0 => Sums {
            lines,
            accepted: t.accepted.wrapping_add(1),
            payload: t.payload.wrapping_add(v.payload as u64),
            ..t
        },
        Some(_) => Sums {
            lines,
            refused: t.refused.wrapping_add(1),
            ..t
        },
    }
}

// What a line gets that ends.
fn judge_line(line: Line, frame: &[u8; 4096]) -> Option<Verdict>
    ensures { result ≡ verdict_in (frame_in line frame.now) }
{
    match line {
        Line::Digits(n) if n % 2 == 0 && n <= trace_line::MAX_DIGITS => Some(trace_text::judge(
            &frame[..n / 2],
        )),
        _ => None,
    }
}

// Ends a line: judges its frame and writes its line of the report.
fn end_line(t: Sums, line: Line, frame: &[u8; 4096], out: &mut [u8], to: usize) -> Ended
    requires { (t.lines < 1000000) × (to + 22 ≤ length out.old) }
    ensures buffer { out.new ≡ stored out.old to (line_text (t.lines + 1) (frame_in line frame.now)) }
    ensures answer { result ≡ ended_as t (frame_in line frame.now) to }
{
    let number = t.lines + 1;
    let verdict = judge_line(line, frame);
    Ended {
        sums: with_line(t, verdict),
        to: match verdict {
            Some(v) => trace_text::put_verdict(out, to, number, v),
            None => trace_text::put_bad(out, to, number),
        },
    }
}

// Takes the bytes up to the end of a line or of the text.
fn take_line(
    table: &DigitTable,
    s: TraceState,
    text: &[u8],
    frame: &mut [u8; 4096],
    out: &mut [u8],
    to: usize,
) -> Turn
    requires { (0 < length text.now) × (to + 22 ≤ length out.old) }
    ensures { Turns s text.now frame.old out.old to result frame.new out.new }
{
    if s.stopped {
        return Turn {
            state: s,
            used: text.len(),
            to,
        };
    }
    if MAX_LINES <= s.sums.lines {
        return Turn {
            state: TraceState { stopped: true, ..s },
            used: 1,
            to: trace_text::put_too_long(out, to),
        };
    }
    let part = trace_line::take_part(table, s.line, text, frame);
    if part.used == text.len() {
        return Turn {
            state: TraceState {
                line: part.line,
                ..s
            },
            used: part.used,
            to,
        };
    }
    let ended = end_line(s.sums, part.line, frame, out, to);
    Turn {
        state: TraceState {
            sums: ended.sums,
            line: Line::Digits(0),
            ..s
        },
        used: part.used + 1,
        to: ended.to,
    }
}

// Begins a report: the state before any block, and the report's first line.
pub fn start(out: &mut [u8; 27]) -> TraceState
    ensures buffer { out.new ≡ heading }
    ensures state { result ≡ start_state }
{
    trace_text::put_heading(out);
    TraceState {
        sums: Sums::default(),
        line: Line::Digits(0),
        stopped: false,
    }
}

// Takes the next block, as far as `out` has room for another line of the report: with fewer than MAX_LINE_BYTES no byte.
pub fn feed(state: TraceState, block: &[u8], frame: &mut [u8; 4096], out: &mut [u8]) -> FeedAnswer
    ensures answer { result ≡ feed_answer state frame.old block.now (length out.old) }
    ensures frame { frame.new ≡ (feed_reading state frame.old block.now (length out.old)).frame }
    ensures buffer { out.new ≡ feed_buffer state frame.old block.now out.old }
    ensures within { (result.used ≤ length block.now) × ((result.written ≤ length out.old) × (result.written ≤ 22 * result.used)) }
{
    let table = DigitTable::new();
    let mut state = state;
    let mut rest = block;
    let mut written = 0;
    while out.len() - written >= MAX_LINE_BYTES && !rest.is_empty() {
        let turn = take_line(&table, state, rest, frame, out, written);
        state = turn.state;
        rest = &rest[turn.used..];
        written = turn.to;
    }
    FeedAnswer {
        state,
        used: block.len() - rest.len(),
        written,
    }
}

// Whether bytes stand behind the last newline.
#[tactic(auto, unfolding(crate::specs::Report::max_lines, trace_line::specs::Line::is_begun))]
fn has_begun(s: TraceState) -> bool
    ensures { result ≡ has_last_line s }
{
    s.sums.lines < MAX_LINES && !matches!(s.line, Line::Digits(0))
}

// Ends the report: the line that has begun, if any, and the sums, 22 and 113 bytes at most; nothing behind `too long`.
pub fn finish(state: TraceState, frame: &[u8; 4096], out: &mut [u8; 135]) -> usize
    ensures written { result ≡ length (finish_text state frame.now) }
    ensures buffer { out.new ≡ stored out.old 0 (finish_text state frame.now) }
    ensures within { result ≤ 135 }
{
    if state.stopped {
        return 0;
    }
    if has_begun(state) {
        // The end of the input ends the line as a newline does. (`end_line` is then called in one place alone, and compiled into the loop.)
        let mut held = *frame;
        let fed = feed(state, b"\n", &mut held, out);
        return trace_text::put_sums(out, fed.written, fed.state.sums);
    }
    trace_text::put_sums(out, 0, state.sums)
}
