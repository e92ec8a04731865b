// Where each byte of a message goes: the chunks of a read list, and the checks on them.
// Internal to the library.
#![tactic(auto)]

ghost use Rattle.std.specs.Prelude.{◌≡◌, true, List, ◌+◌, ◌-◌, ◌≤◌, ◌<◌, length, take};
ghost use Rattle.answers.specs.Refusals.{numbered};
ghost use Rattle.wire.specs.declared.ReadSegment.{ReadSegment};
ghost use Rattle.read_order.specs.ReadOrder.{is_sorted};
ghost use Rattle.chunk_lists.specs.Words.{reads_in};
ghost use Rattle.layout.specs.Layout.{zero_length, base_length, other_chunks, rounded_up, kind_fits};
ghost use Rattle.layout.specs.Internal.Walks.{sums_with, sums_of, ended_length, joined_run, Near, standing_step, Standable, standing_length, reads_check, chunk_check, layout_check};
ghost use Rattle.layout.specs.declared.Run.{Run};

use answers::Refusal;
use header::Kind;
use wire::ReadSegment;

// "a message of at most 1,048,576 bytes"
pub const MAX_MESSAGE_BYTES: usize = 1048576;

// Positions and rounded lengths are multiples of this.
pub const UNIT_BYTES: usize = 4;

// A length, rounded up to a multiple of 4. A read list has less than 16 times 2^32 bytes; the bound leaves room for rounding.
#[tactic(auto, unfolding(crate::specs::Layout::rounded_up))]
pub fn rounded(size: usize) -> usize
    requires { size ≤ 68719476800 }
    ensures { (result ≡ rounded_up size) × (size ≤ result) × (result ≤ size + 3) }
{
    (size + 3) / UNIT_BYTES * UNIT_BYTES
}

// "then Ri - Li zero bytes": how many they are.
pub fn padding(size: usize) -> usize
    requires { size ≤ 68719476800 }
    ensures { (result ≡ rounded_up size - size) × (result ≤ 3) }
{
    rounded(size) - size
}

// What the segments of a read list make together: the bytes at position 0, whether any segment stands there, and all bytes.
// Stays: a flag beside a value; the base asks for the length alone and the kind for the flag alone, so an Option is taken apart twice.
#[derive(Clone, Copy, Default)]
pub struct Sums {
    pub zero_length: usize,
    pub any_zero: bool,
    pub all_length: usize,
}

impl Sums {
    // A segment more.
    #[tactic(auto, unfolding(crate::specs::Internal::Walks::sums_with))]
    fn with(self, x: ReadSegment) -> Sums
        requires { (self.zero_length ≤ self.all_length) × (self.all_length ≤ 64424509440) }
        ensures { (result ≡ sums_with self x) × (x.target.length < 4294967296) }
    {
        let length = x.target.length as usize;
        let at_zero = x.position == 0;
        Sums {
            zero_length: self.zero_length + if at_zero { length } else { 0 },
            any_zero: self.any_zero || at_zero,
            all_length: self.all_length + length,
        }
    }
}

// What the first n segments make together.
// Stays: words and n side by side; `check_reads` and `check_layout`, named in docs/DECISIONS.md, may not ask for a narrower type.
pub fn sums_of(words: &[u32], n: usize) -> Sums
    requires { (n ≤ 16) × (96 ≤ length words.now) }
    ensures { result ≡ sums_of (take n (reads_in words.now)) }
{
    let mut sums = Sums::default();
    for i in 0..n {
        sums = sums.with(chunk_lists::read_segment_of(words, i));
    }
    sums
}

// A run of places: where it begins, and how many they are. A chunk is one, at its position. A walk over read segments has a chunk at
// hand, as a run: where it stands, and its bytes so far. Before the first segment elsewhere than at position 0 that is a run of no
// bytes at 0.
#[derive(Clone, Copy, Default)]
pub struct Run {
    pub at: usize,
    pub length: usize,
}

impl Run {
    // How many bytes the chunk at hand has that a segment ends; 0 if it ends none.
    #[tactic(auto, unfolding(crate::specs::Internal::Walks::ended_length))]
    pub fn ended_length(self, x: ReadSegment) -> usize
        ensures { result ≡ ended_length self x }
    {
        if self.at == x.position as usize {
            0
        } else {
            self.length
        }
    }

    // The chunk at hand behind a segment.
    #[tactic(auto, unfolding(crate::specs::Internal::Walks::joined_run))]
    pub fn joined(self, x: ReadSegment) -> Run
        requires { self.length ≤ 68719476800 }
        ensures { (result ≡ joined_run self x) × Near x }
    {
        let position = x.position as usize;
        let length = x.target.length as usize;
        if position == 0 {
            self
        } else if self.at == position {
            Run {
                at: self.at,
                length: self.length + length,
            }
        } else {
            Run {
                at: position,
                length,
            }
        }
    }
}

// The chunks that stand so far, in a walk over read segments: the one at hand, and the rounded lengths of all before it.
#[derive(Clone, Copy, Default)]
struct Standing {
    hand: Run,
    earlier: usize,
}

impl Standing {
    // A segment more; none if it stands before the end of the former chunk, or past the base.
    #[tactic(auto, using(crate::proofs::ChunkWalk::ended_within_hand), unfolding(crate::specs::Internal::Walks::standing_step))]
    fn step(self, x: ReadSegment, base: usize) -> Option<Standing>
        requires { Standable self }
        ensures { (result ≡ standing_step base self x) × Near x }
    {
        let position = x.position as usize;
        let size = rounded(self.hand.ended_length(x));
        // A position below the one before it, too, lies before the end of the chunk there: this tells a list that is not sorted.
        if self.hand.at + size > position {
            return None;
        }
        let earlier = self.earlier + size;
        if position - earlier > base {
            return None;
        }
        Some(Standing {
            hand: self.hand.joined(x),
            earlier,
        })
    }

    // The rounded lengths of all chunks, behind the last segment.
    fn length(self) -> usize
        requires { Standable self }
        ensures { result ≡ standing_length self }
    {
        self.earlier + rounded(self.hand.length)
    }
}

// The rounded lengths of all chunks together, if each chunk stands behind the former one and within the base.
fn check_chunks(words: &[u32], n: usize, base: usize) -> Option<usize>
    requires { (n ≤ 16) × (is_sorted (take n (reads_in words.now)) ≡ true) × (96 ≤ length words.now) }
    ensures { result ≡ chunk_check base (other_chunks (take n (reads_in words.now))) }
{
    let mut standing = Standing::default();
    for i in 0..n {
        standing = standing.step(chunk_lists::read_segment_of(words, i), base)?;
    }
    Some(standing.length())
}

// What one walk over a read list finds: its sums, and the rounded lengths of its chunks together.
#[derive(Clone, Copy)]
pub struct ReadsFound {
    pub sums: Sums,
    pub chunks: usize,
}

// Sums the segments of a read list up in one walk, if it is sorted, its positions are multiples of 4 and its chunks stand over a base.
pub fn check_reads(words: &[u32], n: usize, base: usize) -> Option<ReadsFound>
    requires { (n ≤ 16) × (96 ≤ length words.now) }
    ensures { result ≡ reads_check base (take n (reads_in words.now)) }
{
    let mut sums = Sums::default();
    let mut standing = Standing::default();
    for i in 0..n {
        let x = chunk_lists::read_segment_of(words, i);
        if x.position as usize % UNIT_BYTES != 0 {
            return None;
        }
        standing = standing.step(x, base)?;
        sums = sums.with(x);
    }
    Some(ReadsFound {
        sums,
        chunks: standing.length(),
    })
}

// The base length of a frame: that of its inline bytes, or of its position-zero chunk.
pub fn base_length(kind: Kind, inline: usize, zero: usize) -> usize
    ensures { (reads : List ReadSegment) → zero ≡ zero_length reads → result ≡ base_length kind inline reads }
{
    match kind {
        Kind::Nomsg => zero,
        Kind::Msg | Kind::Error(_) => inline,
    }
}

fn kind_fits(kind: Kind, any_zero: bool) -> bool
    ensures { result ≡ kind_fits kind any_zero }
{
    matches!((kind, any_zero), (Kind::Msg, false) | (Kind::Nomsg, true))
}

// The checks of a start behind those of the reader, for a base of so many bytes, chunks that were checked and a buffer of `room`: how
// long the message is.
#[tactic(auto, unfolding(crate::specs::Internal::Walks::layout_check, crate::specs::Layout::place_number))]
pub fn check_room(
    kind: Kind,
    base: usize,
    any_zero: bool,
    stood: Option<usize>,
    room: usize,
) -> Result<usize, Refusal>
    ensures { (cs : List Run) → stood ≡ chunk_check base cs → numbered result ≡ layout_check kind base any_zero cs room }
{
    if !kind_fits(kind, any_zero) {
        return Err(Refusal::KindAndLists);
    }
    if base % UNIT_BYTES != 0 {
        return Err(Refusal::BaseUnaligned);
    }
    let chunks = stood.ok_or(Refusal::ChunkOverlaps)?;
    // The base may be any number, and the chunks very long.
    let message = base.saturating_add(chunks);
    if message > MAX_MESSAGE_BYTES {
        return Err(Refusal::MessageLong);
    }
    if message > room {
        return Err(Refusal::BufferShort);
    }
    Ok(message)
}

// The same, with the chunks of a read list.
pub fn check_layout(
    kind: Kind,
    base: usize,
    any_zero: bool,
    words: &[u32],
    n: usize,
    room: usize,
) -> Result<usize, Refusal>
    requires { (n ≤ 16) × (is_sorted (take n (reads_in words.now)) ≡ true) × (96 ≤ length words.now) }
    ensures { numbered result ≡ layout_check kind base any_zero (other_chunks (take n (reads_in words.now))) room }
{
    check_room(kind, base, any_zero, check_chunks(words, n, base), room)
}
