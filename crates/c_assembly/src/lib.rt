// The reassembly of a call, for C: the state is lent as words, and what a call makes is stored where the caller says.
#![tactic(auto)]

ghost use Rattle.std.specs.Prelude.{◌≡◌, length};
ghost use Rattle.reader.specs.Frame.{read_frame};
ghost use Rattle.assembly_start.specs.Start.{start_number, start_buffer, start_words};
ghost use Rattle.assembly.specs.Assembly.{piece_answer, piece_buffer, message_number, piece_words};
ghost use Rattle.c_assembly.specs.Message.{message_size};
ghost use Rattle.assembly_state.specs.Words.{state_in};

use assembly::PieceAnswer;

// Starts the reassembly of a call.
pub fn eos_start(frame: &[u8], out: &mut [u8], state: &mut [u32; 104]) -> u32
    ensures answer { result ≡ start_number (read_frame frame.now) (length out.old) }
    ensures state { state.new ≡ start_words (read_frame frame.now) (length out.old) state.old }
    ensures buffer { out.new ≡ start_buffer (read_frame frame.now) out.old }
{
    assembly_start::start_into(frame, out, state)
}

// Takes a piece of the pulled bytes, which come in the order of the list of the state. Of the state, only the count changes.
pub fn eos_take_piece(state: &mut [u32; 104], piece: &[u8], out: &mut [u8]) -> PieceAnswer
    ensures answer { result ≡ piece_answer (state_in state.old) (length out.old) (length piece.now) }
    ensures state { state.new ≡ piece_words state.old (length out.old) (length piece.now) }
    ensures buffer { out.new ≡ piece_buffer (state_in state.old) piece.now out.old }
{
    assembly::take_piece(state, piece, out)
}

// Asks for the message, the first bytes of the buffer: how many they are, once all bytes are in.
// Stays: a number, and a place for the length; C's `eos_message` is so.
pub fn eos_message(state: &[u32; 104], out: &[u8], size: &mut usize) -> u32
    ensures answer { result ≡ message_number (state_in state.now) (length out.now) }
    ensures size { size.new ≡ message_size (state_in state.now) (length out.now) size.old }
{
    let asked = assembly::message_answer(state, out.len());
    let Ok(length) = asked else {
        return answers::number(asked);
    };
    *size = length;
    0
}
