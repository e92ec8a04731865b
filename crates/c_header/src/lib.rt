// The transport header, for C: it is lent as words, and what a call makes is stored where the caller says.
#![tactic(auto)]

ghost use Rattle.std.specs.Prelude.{◌≡◌, length};
ghost use Rattle.answers.specs.Answers.{unless_refused};
ghost use Rattle.reader.specs.Frame.{read_frame, payload_of, read_number, read_words};
ghost use Rattle.header.specs.Words.{header_in};
ghost use Rattle.writer.specs.Write.{write_words_answer, write_words_buffer};
ghost use Rattle.c_header.specs.Part.{part_of};

// A part of a lent buffer.
#[repr(C)]
#[derive(Clone, Copy)]
pub struct Part {
    pub offset: usize,
    pub length: usize,
}

// Reads the header of a frame.
pub fn eos_read_header(frame: &[u8], header: &mut [u32; 238]) -> u32
    ensures answer { result ≡ read_number (read_frame frame.now) }
    ensures header { header.new ≡ read_words (read_frame frame.now) header.old }
{
    reader::decode_header(frame, header)
}

// Where the inline payload of a frame lies.
pub fn eos_payload(frame: &[u8]) -> Part
    ensures { result ≡ part_of frame.now (payload_of (read_frame frame.now)) }
{
    let part = reader::payload(frame);
    let n = part.len();
    if n == 0 {
        return Part {
            offset: 0,
            length: 0,
        };
    }
    Part {
        offset: frame.len() - n,
        length: n,
    }
}

// Writes a header into a buffer.
pub fn eos_write_header(header: &[u32; 238], out: &mut [u8], size: &mut usize) -> u32
    ensures answer { result ≡ (write_words_answer (header_in header.now) (length out.old)).number }
    ensures size { size.new ≡ unless_refused (write_words_answer (header_in header.now) (length out.old)).number (write_words_answer (header_in header.now) (length out.old)).length size.old }
    ensures buffer { out.new ≡ write_words_buffer (header_in header.now) out.old }
{
    writer::write_words(header, out, size)
}
