// Credits and error replies, for C: what a call makes is stored where the caller says.
#![tactic(auto)]

ghost use Rattle.std.specs.Prelude.{◌≡◌, length};
ghost use Rattle.answers.specs.Answers.{unless_refused};
ghost use Rattle.credit.specs.Credit.{grant_answer};
ghost use Rattle.error_reply.specs.Reply.{error_reply_answer, error_reply_buffer};

// The credits to grant to one who asks.
pub fn eos_grant(asked: u32, limit: u32, credit: &mut u32) -> u32
    ensures answer { result ≡ (grant_answer asked limit).number }
    ensures credit { credit.new ≡ unless_refused (grant_answer asked limit).number (grant_answer asked limit).credit credit.old }
{
    let a = credit::grant(asked, limit);
    if a.number == 0 {
        *credit = a.credit;
    }
    a.number
}

// Writes the reply to a frame that got an answer number, if there is one.
pub fn eos_error_reply(
    frame: &[u8],
    number: u32,
    limit: u32,
    out: &mut [u8],
    size: &mut usize,
) -> u32
    ensures answer { result ≡ (error_reply_answer frame.now number limit (length out.old)).number }
    ensures size { size.new ≡ unless_refused (error_reply_answer frame.now number limit (length out.old)).number (error_reply_answer frame.now number limit (length out.old)).length size.old }
    ensures buffer { out.new ≡ error_reply_buffer frame.now number limit out.old }
{
    let a = error_reply::error_reply(frame, number, limit, out);
    if a.number != 0 {
        return a.number;
    }
    *size = a.length;
    0
}
