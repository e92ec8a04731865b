// The line of a trace that has begun, decoded as its bytes come: digits into the bytes of a frame. Internal to the library.
#![tactic(auto)]

ghost use Rattle.std.specs.Prelude.{◌≡◌, ◌≤◌, ◌<◌, ◌⊎◌, take};
ghost use Rattle.trace_line.specs.Line.{next_line, next_frame, with_digit};
ghost use Rattle.trace_line.specs.Internal.Taking.{table_value, digit_of, Values, Takes, Pairs, line_length, line_after, frame_after};

// "above 8,192 digits"
pub const MAX_DIGITS: usize = 8192;

pub const NEWLINE: u8 = 10;

// The value of what is no digit: more than four digits together, so that one test serves four, and four of it fit a byte.
// Stays: with a table of `Option<u8>`, which has a test for each digit, decoding takes 0.57 ns a digit in place of 0.43.
const NO_DIGIT: u8 = 63;

// The line that has begun: how many digits of it are in the frame buffer, or that it is bad.
// Stays: it is part of the state that trace::start, trace::feed and trace::finish take and answer.
#[derive(Clone, Copy)]
pub enum Line {
    Digits(usize),
    Bad,
}

// A part of a line that was taken: the line with it, and how many bytes it has.
#[derive(Clone, Copy)]
pub struct Part {
    pub line: Line,
    pub used: usize,
}

// The values of all characters: a chain of tests for each digit would cost a wrong guess for most of them.
#[derive(Clone, Copy)]
pub struct DigitTable {
    values: [u8; 256],
    ghost complete: { Values 256 values },
}

impl DigitTable {
    pub fn new() -> DigitTable {
        DigitTable {
            values: std::array::from_fn(|c| value_of(c as u8)),
        }
    }

    #[tactic(auto, using(crate::proofs::Digits::table_either))]
    fn value(&self, c: u8) -> u8
        ensures is { result ≡ table_value c }
        ensures either { (result < 16) ⊎ (result ≡ 63) }
    {
        self.values[c as usize]
    }

    // What a character stands for, if it is a digit.
    #[tactic(auto, using(crate::proofs::Digits::table_some, crate::proofs::Digits::table_none))]
    fn digit(&self, c: u8) -> Option<u8>
        ensures { result ≡ digit_of c }
    {
        let value = self.value(c);
        if value < NO_DIGIT { Some(value) } else { None }
    }
}

// What a character stands for as a digit.
#[tactic(auto, unfolding(crate::specs::Internal::Taking::table_value, crate::specs::Line::value_of))]
fn value_of(c: u8) -> u8
    ensures { result ≡ table_value c }
{
    match c {
        b'0'..=b'9' => c - b'0',
        b'A'..=b'F' => c - b'A' + 10,
        b'a'..=b'f' => c - b'a' + 10,
        _ => NO_DIGIT,
    }
}

// Puts digit n into its half of a byte.
#[tactic(auto, unfolding(crate::specs::Line::with_digit))]
fn put_digit(n: usize, value: u8, frame: &mut [u8; 4096])
    requires { (n < 8192) × (value < 16) }
    ensures { frame.new ≡ with_digit n value frame.old }
{
    let k = n / 2;
    frame[k] = if n % 2 == 0 {
        value * 16
    } else {
        frame[k] / 16 * 16 + value
    };
}

// Takes one byte, which is no newline.
#[tactic(auto, unfolding(crate::specs::Line::next_line, crate::specs::Line::next_frame, crate::specs::Internal::Taking::digit_of))]
fn take_byte(table: &DigitTable, line: Line, b: u8, frame: &mut [u8; 4096]) -> Line
    ensures line { result ≡ next_line line b }
    ensures frame { frame.new ≡ next_frame line frame.old b }
{
    let (Line::Digits(n), Some(value)) = (line, table.digit(b)) else {
        return Line::Bad;
    };
    if MAX_DIGITS <= n {
        return Line::Bad;
    }
    put_digit(n, value, frame);
    Line::Digits(n + 1)
}

// Decodes pairs of digits to the front of a buffer, two at a time, as far as there are pairs and room.
fn decode_pairs(table: &DigitTable, text: &[u8], frame: &mut [u8]) -> usize
    ensures { Pairs text.now frame.old result frame.new }
{
    let n = (text.len() / 4).min(frame.len() / 2) * 2;
    for k in (0..n).step_by(2) {
        let a = table.value(text[2 * k]);
        let b = table.value(text[2 * k + 1]);
        let c = table.value(text[2 * k + 2]);
        let d = table.value(text[2 * k + 3]);
        if NO_DIGIT <= a + b + c + d {
            return k;
        }
        frame[k] = a * 16 + b;
        frame[k + 1] = c * 16 + d;
    }
    n
}

// Takes the digit that fills the half byte which a line ends in, if it does.
fn take_half(table: &DigitTable, line: Line, text: &[u8], frame: &mut [u8; 4096]) -> Part
    ensures { Takes line text.now frame.old result frame.new }
{
    match (line, text) {
        (Line::Digits(n), [b, ..]) if n % 2 == 1 && *b != NEWLINE => Part {
            line: take_byte(table, line, *b, frame),
            used: 1,
        },
        _ => Part { line, used: 0 },
    }
}

// Takes pairs of digits, two at a time, where the line ends in a whole byte.
fn take_pairs(table: &DigitTable, line: Line, text: &[u8], frame: &mut [u8; 4096]) -> Part
    ensures { Takes line text.now frame.old result frame.new }
{
    match line {
        Line::Digits(n) if n % 2 == 0 && n <= MAX_DIGITS => {
            let pairs = decode_pairs(table, text, &mut frame[n / 2..]);
            Part {
                line: Line::Digits(n + 2 * pairs),
                used: 2 * pairs,
            }
        }
        _ => Part { line, used: 0 },
    }
}

// Takes what stands before the first newline, byte by byte.
fn take_bytes(table: &DigitTable, line: Line, text: &[u8], frame: &mut [u8; 4096]) -> Part
    ensures part { Takes line text.now frame.old result frame.new }
    ensures all { result.used ≡ line_length text.now }
{
    let mut begun = line;
    for (used, b) in text.iter().enumerate() {
        if *b == NEWLINE {
            return Part { line: begun, used };
        }
        begun = take_byte(table, begun, *b, frame);
    }
    Part {
        line: begun,
        used: text.len(),
    }
}

// Takes what stands before the first newline: in pairs, as far as they go.
pub fn take_part(table: &DigitTable, line: Line, text: &[u8], frame: &mut [u8; 4096]) -> Part
    ensures used { result.used ≡ line_length text.now }
    ensures line { result.line ≡ line_after line (take (line_length text.now) text.now) }
    ensures frame { frame.new ≡ frame_after line frame.old (take (line_length text.now) text.now) }
{
    let half = take_half(table, line, text, frame);
    let i = half.used;
    let pairs = take_pairs(table, half.line, &text[i..], frame);
    let j = i + pairs.used;
    let rest = take_bytes(table, pairs.line, &text[j..], frame);
    Part {
        line: rest.line,
        used: j + rest.used,
    }
}
