// The pieces and the message of a reassembly, whose state is lent as words. Public: take_piece, message_number, message.
#![tactic(auto)]

ghost use Rattle.std.specs.Prelude.{◌≡◌, length};
ghost use Rattle.answers.specs.Refusals.{numbered};
ghost use Rattle.chunk_lists.specs.Words.{reads_in};
ghost use Rattle.assembly_state.specs.Words.{with_reads, state_in};
ghost use Rattle.assembly.specs.Assembly.{piece_answer, piece_buffer, piece_words, message_number, message_part};
ghost use Rattle.assembly.specs.Internal.StateCheck.{StateChecked, placed_piece, message_answer};

use answers::Refusal;
use assembly_state::Parts;

// What a piece is answered with: the number, and how many goes it took to place it.
// Stays: `eos_take_piece` hands it to C.
#[repr(C)]
#[derive(Clone, Copy)]
pub struct PieceAnswer {
    pub number: u32,
    pub goes: u32,
}

// A piece that was placed: the count behind it, and how many goes it took.
#[derive(Clone, Copy)]
pub struct PlacedPiece {
    pub taken: usize,
    pub goes: u32,
}

// Of a state that fits: how many bytes the message has, and how many of them are pulled.
#[derive(Clone, Copy)]
pub struct StateFound {
    pub message: usize,
    pub pulled: usize,
}

// Checks a state against a buffer of `room` bytes.
fn check_state(words: &[u32; 104], p: Parts, room: usize) -> Option<StateFound>
    ensures { StateChecked (with_reads (reads_in words.now) p) room result }
{
    if p.count > chunk_lists::MAX_READ_SEGMENTS as u32 {
        return None;
    }
    if p.buffer != room {
        return None;
    }
    let found = layout::check_reads(words, p.count as usize, p.base)?;
    let sums = found.sums;
    let chunks = Some(found.chunks);
    let message = layout::check_room(p.kind, p.base, sums.any_zero, chunks, room).ok()?;
    if layout::base_length(p.kind, p.base, sums.zero_length) != p.base {
        return None;
    }
    if p.taken > sums.all_length {
        return None;
    }
    Some(StateFound {
        message,
        pulled: sums.all_length,
    })
}

// Takes a piece; the count is for the caller to store.
fn place_piece(words: &[u32; 104], piece: &[u8], out: &mut [u8]) -> Result<PlacedPiece, Refusal>
    ensures answer { numbered result ≡ placed_piece (state_in words.now) (length out.old) (length piece.now) }
    ensures buffer { out.new ≡ piece_buffer (state_in words.now) piece.now out.old }
{
    let p = Parts::from(words);
    let found = check_state(words, p, out.len()).ok_or(Refusal::StateUnfit)?;
    let size = piece.len();
    if size > found.pulled - p.taken {
        return Err(Refusal::PieceLong);
    }
    let goes = placing::place(out, piece, words, p.count as usize, p.base, p.taken);
    Ok(PlacedPiece {
        taken: p.taken + size,
        goes,
    })
}

// Takes a piece of the pulled bytes, which come in the order of the list of the state. Of the state, only the count changes.
pub fn take_piece(words: &mut [u32; 104], piece: &[u8], out: &mut [u8]) -> PieceAnswer
    ensures answer { result ≡ piece_answer (state_in words.old) (length out.old) (length piece.now) }
    ensures state { words.new ≡ piece_words words.old (length out.old) (length piece.now) }
    ensures buffer { out.new ≡ piece_buffer (state_in words.old) piece.now out.old }
{
    match place_piece(words, piece, out) {
        Ok(placed) => {
            assembly_state::store_number(words, assembly_state::TAKEN_AT, placed.taken);
            PieceAnswer {
                number: 0,
                goes: placed.goes,
            }
        }
        Err(refusal) => PieceAnswer {
            number: u32::from(refusal),
            goes: 0,
        },
    }
}

// Asks how long the message is, in a buffer of `room` bytes.
pub fn message_answer(words: &[u32; 104], room: usize) -> Result<usize, Refusal>
    ensures { numbered result ≡ message_answer (state_in words.now) room }
{
    let p = Parts::from(words);
    let found = check_state(words, p, room).ok_or(Refusal::StateUnfit)?;
    if p.taken != found.pulled {
        return Err(Refusal::BytesMissing);
    }
    Ok(found.message)
}

// Asks whether all bytes are in.
// Stays: README has it answer a number.
pub fn message_number(words: &[u32; 104], out: &[u8]) -> u32
    ensures { result ≡ message_number (state_in words.now) (length out.now) }
{
    answers::number(message_answer(words, out.len()))
}

// The message, once all bytes are in: the first part of the buffer.
pub fn message<'a>(words: &[u32; 104], out: &'a [u8]) -> &'a [u8]
    ensures { result.now ≡ message_part (state_in words.now) out.now }
{
    let end = message_answer(words, out.len()).unwrap_or(0);
    &out[..end]
}
