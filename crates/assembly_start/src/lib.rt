// The start of a reassembly. Public: start; start_into, which stores the state into lent words.
#![tactic(auto)]

ghost use Rattle.std.specs.Prelude.{◌≡◌, ◌≤◌, length, take};
ghost use Rattle.chunk_lists.specs.Words.{reads_in};
ghost use Rattle.reader.specs.Frame.{read_frame};
ghost use Rattle.layout.specs.Layout.{other_chunks, message_length};
ghost use Rattle.placing.specs.Internal.Sources.{LayoutChecked};
ghost use Rattle.assembly_start.specs.Start.{start_writes, start_number, start_buffer, start_words, start_answer};

use assembly_state::Parts;

// What a start makes: the words of the state to hand on, and the number.
// Stays: README has `start` with this answer.
#[derive(Clone, Copy)]
pub struct StartAnswer {
    pub state: [u32; 104],
    pub number: u32,
}

// Writes what a start writes: an inline base, and all padding.
fn write_base_and_padding(inline: &[u8], words: &[u32; 104], n: usize, base: usize, out: &mut [u8])
    requires { (n ≤ 16) × LayoutChecked base (take n (reads_in words.now)) × (message_length base (other_chunks (take n (reads_in words.now))) ≤ length out.old) × (length inline.now ≤ base) }
    ensures { out.new ≡ start_writes base (other_chunks (take n (reads_in words.now))) inline.now out.old }
{
    placing::place_base(out, inline, words, n, base, 0);
    placing::clear_paddings(out, words, n, base);
}

// Starts the reassembly of a call. The state is stored into lent words, which stay as they are if the start is refused.
// Stays: README has it answer a number, as `eos_start` hands on.
pub fn start_into(frame: &[u8], out: &mut [u8], words: &mut [u32; 104]) -> u32
    ensures answer { result ≡ start_number (read_frame frame.now) (length out.old) }
    ensures state { words.new ≡ start_words (read_frame frame.now) (length out.old) words.old }
    ensures buffer { out.new ≡ start_buffer (read_frame frame.now) out.old }
{
    let room = out.len();
    let walk = reader::check_frame(frame);
    let Ok(shape) = walk else {
        return answers::number(walk);
    };
    let kind = shape.kind;
    let n = shape.reads;
    let inline = &frame[shape.end..];
    let mut state = [0u32; 104];
    reader::decode_frame_reads(frame, shape, &mut state);
    read_order::sort_reads(&mut state, n);
    let sums = layout::sums_of(&state, n);
    let base = layout::base_length(kind, inline.len(), sums.zero_length);
    let measured = layout::check_layout(kind, base, sums.any_zero, &state, n, room);
    let Ok(_) = measured else {
        return answers::number(measured);
    };
    write_base_and_padding(inline, &state, n, base, out);
    let parts = Parts {
        kind,
        count: n as u32,
        base,
        buffer: room,
        taken: 0,
    };
    parts.store(&mut state);
    *words = state;
    0
}

// Starts the reassembly of a call.
pub fn start(frame: &[u8], out: &mut [u8]) -> StartAnswer
    ensures answer { result ≡ start_answer (read_frame frame.now) (length out.old) }
    ensures buffer { out.new ≡ start_buffer (read_frame frame.now) out.old }
{
    let mut state = [0u32; 104];
    let number = start_into(frame, out, &mut state);
    StartAnswer { state, number }
}
