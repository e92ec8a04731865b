// Replays a trace: lines of hexadecimal from standard input, the report to standard output. Input that cannot be read, and output
// that cannot be written, end the program with a line on standard error; the report then has no last line.
#![tactic(auto)]

ghost use Rattle.std.specs.Prelude.{◌≤◌, length};

use std::fmt;
use std::fmt::Write;
use std::io::{Error, Print, Read, Stderr, Stdin, Stdout};
use trace::TraceState;

// What ends a replay before its report is whole.
#[derive(Drop)]
pub enum Failure {
    Read(Error),
    Write(Error),
}

// The words of a system error: as many as there is room for.
// Stays: a `String` needs the heap, of which the program has none, and telling of an error could then fail.
#[derive(Drop)]
pub struct Words {
    bytes: [u8; 256],
    len: usize,
    ghost within: { len ≤ 256 },
}

impl Words {
    fn of(error: &Error) -> Words {
        let mut words = Words {
            bytes: [0u8; 256],
            len: 0,
        };
        let _ = write!(words, "{error}");
        words
    }

    // Those before the error's number, which the library puts behind them.
    fn without_number(&self) -> &[u8]
        ensures { length result.now ≤ self.now.len }
    {
        let words = &self.bytes[..self.len];
        let number = b" (os error ";
        match words
            .windows(number.len())
            .position(|w| w == number.as_slice())
        {
            Some(n) => &words[..n],
            None => words,
        }
    }
}

impl fmt::Write for Words {
    fn write_str(&mut self, s: &str) -> fmt::Result {
        let room = self.bytes.len() - self.len;
        let n = s.len().min(room);
        self.bytes[self.len..self.len + n].copy_from_slice(&s.as_bytes()[..n]);
        self.len += n;
        Ok(())
    }
}

// Writes a line to standard error: what failed, a colon and the system's words.
fn tell(errors: &Stderr, failure: &Failure) {
    let (what, error) = match failure {
        Failure::Read(error) => ("replay: the trace cannot be read: ", error),
        Failure::Write(error) => ("replay: the report cannot be written: ", error),
    };
    let words = Words::of(error);
    let _ = errors.write_all(what.as_bytes());
    let _ = errors.write_all(words.without_number());
    let _ = errors.write_all(b"\n");
}

// Feeds a block, and writes what it gives whenever the buffer has no room for another line.
fn feed_block(
    output: &Stdout,
    state: TraceState,
    block: &[u8],
    frame: &mut [u8; 4096],
    out: &mut [u8; 65536],
) -> Result<TraceState, Failure> {
    let mut state = state;
    let mut rest = block;
    while !rest.is_empty() {
        let fed = trace::feed(state, rest, frame, out);
        output
            .write_all(&out[..fed.written])
            .map_err(Failure::Write)?;
        state = fed.state;
        rest = &rest[fed.used..];
    }
    Ok(state)
}

// Reads blocks, as they come, until the input ends or nothing more is to be reported.
fn report_input(
    input: &mut Stdin,
    output: &Stdout,
    block: &mut [u8; 65536],
    frame: &mut [u8; 4096],
    out: &mut [u8; 65536],
) -> Result<(), Failure> {
    let mut first = [0u8; 27];
    let mut state = trace::start(&mut first);
    output.write_all(&first).map_err(Failure::Write)?;
    // As many reads as a number can count: the language has no endless loop.
    for _ in 0..u64::MAX {
        let n = input.read(block).map_err(Failure::Read)?;
        if n == 0 {
            let mut last = [0u8; 135];
            let written = trace::finish(state, frame, &mut last);
            return output.write_all(&last[..written]).map_err(Failure::Write);
        }
        state = feed_block(output, state, &block[..n], frame, out)?;
        if state.stopped {
            break;
        }
    }
    Ok(())
}

fn main(rt: HostRuntime) {
    let mut input = rt.stdin();
    let mut block = [0u8; 65536];
    let mut frame = [0u8; 4096];
    let mut out = [0u8; 65536];
    if let Err(failure) = report_input(&mut input, &rt.stdout(), &mut block, &mut frame, &mut out) {
        tell(&rt.stderr(), &failure);
    }
}
