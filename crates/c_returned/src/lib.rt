// What a reply says was filled, for C: the headers are lent as words, and the numbers are stored where the caller says.
#![tactic(auto)]

ghost use Rattle.std.specs.Prelude.{◌≡◌};
ghost use Rattle.header.specs.Words.{header_in};
ghost use Rattle.returned.specs.Returned.{returned_words_number, returned_words_places};

// Compares the header that was sent and the reply's.
pub fn eos_returned(sent: &[u32; 238], reply: &[u32; 238], landed: &mut [u64; 5]) -> u32
    ensures answer { result ≡ returned_words_number (header_in sent.now) (header_in reply.now) }
    ensures landed { landed.new ≡ returned_words_places (header_in sent.now) (header_in reply.now) landed.old }
{
    returned::returned_words(sent, reply, landed)
}
