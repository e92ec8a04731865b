// The library that C links: each export calls the function of its name and promises the same. No code stands here.
#![tactic(auto)]

ghost use Rattle.std.specs.Prelude.{◌≡◌, length};
ghost use Rattle.answers.specs.Answers.{unless_refused};
ghost use Rattle.reader.specs.Frame.{read_frame, payload_of, read_number, read_words};
ghost use Rattle.header.specs.Words.{header_in};
ghost use Rattle.writer.specs.Write.{write_words_answer, write_words_buffer};
ghost use Rattle.c_header.specs.Part.{part_of};
ghost use Rattle.setup.specs.Setup.{read_setup};
ghost use Rattle.c_setup.specs.Words.{present_word, setup_words, agreement_words, write_setup_words_answer, write_setup_words_buffer, agree_words_answer};
ghost use Rattle.credit.specs.Credit.{grant_answer};
ghost use Rattle.error_reply.specs.Reply.{error_reply_answer, error_reply_buffer};
ghost use Rattle.assembly_start.specs.Start.{start_number, start_buffer, start_words};
ghost use Rattle.assembly.specs.Assembly.{piece_answer, piece_buffer, message_number, piece_words};
ghost use Rattle.c_assembly.specs.Message.{message_size};
ghost use Rattle.assembly_state.specs.Words.{state_in};
ghost use Rattle.returned.specs.Returned.{returned_words_number, returned_words_places};
ghost use Rattle.ledger.specs.Ledger.{open_answer, send_answer, send_ledger, reply_number, reply_ledger};

use assembly::PieceAnswer;
use c_header::Part;
use ledger::{Ledger, SendAnswer};

// Reads the header of a frame.
#[unsafe(no_mangle)]
pub extern "C" fn eos_read_header(frame: &[u8], header: &mut [u32; 238]) -> u32
    ensures answer { result ≡ read_number (read_frame frame.now) }
    ensures header { header.new ≡ read_words (read_frame frame.now) header.old }
{
    c_header::eos_read_header(frame, header)
}

// Where the inline payload of a frame lies.
#[unsafe(no_mangle)]
pub extern "C" fn eos_payload(frame: &[u8]) -> Part
    ensures { result ≡ part_of frame.now (payload_of (read_frame frame.now)) }
{
    c_header::eos_payload(frame)
}

// Writes a header into a buffer.
#[unsafe(no_mangle)]
pub extern "C" fn eos_write_header(header: &[u32; 238], out: &mut [u8], size: &mut usize) -> u32
    ensures answer { result ≡ (write_words_answer (header_in header.now) (length out.old)).number }
    ensures size { size.new ≡ unless_refused (write_words_answer (header_in header.now) (length out.old)).number (write_words_answer (header_in header.now) (length out.old)).length size.old }
    ensures buffer { out.new ≡ write_words_buffer (header_in header.now) out.old }
{
    c_header::eos_write_header(header, out, size)
}

// Reads setup data.
#[unsafe(no_mangle)]
pub extern "C" fn eos_read_setup(bytes: &[u8], setup: &mut [u32; 3], present: &mut u32) -> u32
    ensures answer { result ≡ (read_setup bytes.now).number }
    ensures setup { setup.new ≡ setup_words (read_setup bytes.now).setup }
    ensures present { present.new ≡ present_word (read_setup bytes.now) }
{
    c_setup::eos_read_setup(bytes, setup, present)
}

// Writes setup data into a buffer.
#[unsafe(no_mangle)]
pub extern "C" fn eos_write_setup(setup: &[u32; 3], out: &mut [u8], size: &mut usize) -> u32
    ensures answer { result ≡ (write_setup_words_answer setup.now (length out.old)).number }
    ensures size { size.new ≡ unless_refused (write_setup_words_answer setup.now (length out.old)).number (write_setup_words_answer setup.now (length out.old)).length size.old }
    ensures buffer { out.new ≡ write_setup_words_buffer setup.now out.old }
{
    c_setup::eos_write_setup(setup, out, size)
}

// What follows from the setup data of both sides.
#[unsafe(no_mangle)]
pub extern "C" fn eos_agree(client: &[u32; 3], server: &[u32; 3], agreement: &mut [u32; 3]) -> u32
    ensures answer { result ≡ (agree_words_answer client.now server.now).number }
    ensures agreement { agreement.new ≡ unless_refused (agree_words_answer client.now server.now).number (agreement_words (agree_words_answer client.now server.now)) agreement.old }
{
    c_setup::eos_agree(client, server, agreement)
}

// The credits to grant to one who asks.
#[unsafe(no_mangle)]
pub extern "C" fn eos_grant(asked: u32, limit: u32, credit: &mut u32) -> u32
    ensures answer { result ≡ (grant_answer asked limit).number }
    ensures credit { credit.new ≡ unless_refused (grant_answer asked limit).number (grant_answer asked limit).credit credit.old }
{
    c_reply::eos_grant(asked, limit, credit)
}

// Writes the reply to a frame that got an answer number, if there is one.
#[unsafe(no_mangle)]
pub extern "C" fn eos_error_reply(
    frame: &[u8],
    number: u32,
    limit: u32,
    out: &mut [u8],
    size: &mut usize,
) -> u32
    ensures answer { result ≡ (error_reply_answer frame.now number limit (length out.old)).number }
    ensures size { size.new ≡ unless_refused (error_reply_answer frame.now number limit (length out.old)).number (error_reply_answer frame.now number limit (length out.old)).length size.old }
    ensures buffer { out.new ≡ error_reply_buffer frame.now number limit out.old }
{
    c_reply::eos_error_reply(frame, number, limit, out, size)
}

// Starts the reassembly of a call.
#[unsafe(no_mangle)]
pub extern "C" fn eos_start(frame: &[u8], out: &mut [u8], state: &mut [u32; 104]) -> u32
    ensures answer { result ≡ start_number (read_frame frame.now) (length out.old) }
    ensures state { state.new ≡ start_words (read_frame frame.now) (length out.old) state.old }
    ensures buffer { out.new ≡ start_buffer (read_frame frame.now) out.old }
{
    c_assembly::eos_start(frame, out, state)
}

// Takes a piece of the pulled bytes, which come in the order of the list of the state. Of the state, only the count changes.
#[unsafe(no_mangle)]
pub extern "C" fn eos_take_piece(
    state: &mut [u32; 104],
    piece: &[u8],
    out: &mut [u8],
) -> PieceAnswer
    ensures answer { result ≡ piece_answer (state_in state.old) (length out.old) (length piece.now) }
    ensures state { state.new ≡ piece_words state.old (length out.old) (length piece.now) }
    ensures buffer { out.new ≡ piece_buffer (state_in state.old) piece.now out.old }
{
    c_assembly::eos_take_piece(state, piece, out)
}

// Asks for the message, the first bytes of the buffer: how many they are, once all bytes are in.
#[unsafe(no_mangle)]
pub extern "C" fn eos_message(state: &[u32; 104], out: &[u8], size: &mut usize) -> u32
    ensures answer { result ≡ message_number (state_in state.now) (length out.now) }
    ensures size { size.new ≡ message_size (state_in state.now) (length out.now) size.old }
{
    c_assembly::eos_message(state, out, size)
}

// Compares the header that was sent and the reply's.
#[unsafe(no_mangle)]
pub extern "C" fn eos_returned(sent: &[u32; 238], reply: &[u32; 238], landed: &mut [u64; 5]) -> u32
    ensures answer { result ≡ returned_words_number (header_in sent.now) (header_in reply.now) }
    ensures landed { landed.new ≡ returned_words_places (header_in sent.now) (header_in reply.now) landed.old }
{
    c_returned::eos_returned(sent, reply, landed)
}

// Opens a ledger with no call in flight.
#[unsafe(no_mangle)]
pub extern "C" fn eos_ledger_open(last: u32, ledger: &mut Ledger) -> u32
    ensures answer { result ≡ (open_answer last).number }
    ensures ledger { ledger.new ≡ (open_answer last).ledger }
{
    c_ledger::eos_ledger_open(last, ledger)
}

// Sends a call: takes the next xid, and says how many were passed over.
#[unsafe(no_mangle)]
pub extern "C" fn eos_ledger_send(ledger: &mut Ledger) -> SendAnswer
    ensures answer { result ≡ send_answer ledger.old }
    ensures ledger { ledger.new ≡ send_ledger ledger.old }
{
    c_ledger::eos_ledger_send(ledger)
}

// Takes a reply: the call leaves, and the grant is set.
#[unsafe(no_mangle)]
pub extern "C" fn eos_ledger_reply(ledger: &mut Ledger, xid: u32, grant: u32) -> u32
    ensures answer { result ≡ reply_number ledger.old xid grant }
    ensures ledger { ledger.new ≡ reply_ledger ledger.old xid grant }
{
    c_ledger::eos_ledger_reply(ledger, xid, grant)
}
