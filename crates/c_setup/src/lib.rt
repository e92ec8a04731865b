// The connection setup data, for C: each side's and what follows from two are lent as words.
#![tactic(auto)]

ghost use Rattle.std.specs.Prelude.{◌≡◌, length};
ghost use Rattle.answers.specs.Answers.{unless_refused};
ghost use Rattle.answers.specs.Refusals.{numbered};
ghost use Rattle.setup.specs.Setup.{read_setup};
ghost use Rattle.c_setup.specs.Words.{present_word, held_setup, setup_words, agreement_words, write_setup_words_answer, write_setup_words_buffer, agree_words_answer};

use answers::Refusal;
use setup::{Setup, Size};

// The words of one side's setup data: the flag, 0 or 1, and the two sizes in bytes.
const FLAG_AT: usize = 0;

const SEND_AT: usize = 1;

const RECEIVE_AT: usize = 2;

// The setup data that words hold.
#[tactic(auto, unfolding(crate::specs::Words::setup_in))]
fn setup_in(words: &[u32; 3]) -> Result<Setup, Refusal>
    ensures { numbered result ≡ held_setup words.now }
{
    if 1 < words[FLAG_AT] {
        return Err(Refusal::BadArgument);
    }
    Ok(Setup {
        remote_invalidation: words[FLAG_AT] == 1,
        send: Size(words[SEND_AT]),
        receive: Size(words[RECEIVE_AT]),
    })
}

// Reads setup data.
#[tactic(auto, unfolding(crate::specs::Words::setup_words))]
pub fn eos_read_setup(bytes: &[u8], setup: &mut [u32; 3], present: &mut u32) -> u32
    ensures answer { result ≡ (read_setup bytes.now).number }
    ensures setup { setup.new ≡ setup_words (read_setup bytes.now).setup }
    ensures present { present.new ≡ present_word (read_setup bytes.now) }
{
    let found = setup::read_setup(bytes);
    let x = found.setup;
    *setup = [u32::from(x.remote_invalidation), x.send.0, x.receive.0];
    *present = u32::from(found.present);
    found.number
}

// Writes setup data into a buffer.
#[tactic(auto, unfolding(crate::specs::Words::write_setup_words_answer, crate::specs::Words::write_setup_words_buffer))]
pub fn eos_write_setup(setup: &[u32; 3], out: &mut [u8], size: &mut usize) -> u32
    ensures answer { result ≡ (write_setup_words_answer setup.now (length out.old)).number }
    ensures size { size.new ≡ unless_refused (write_setup_words_answer setup.now (length out.old)).number (write_setup_words_answer setup.now (length out.old)).length size.old }
    ensures buffer { out.new ≡ write_setup_words_buffer setup.now out.old }
{
    let held = setup_in(setup);
    let Ok(side) = held else {
        return answers::number(held);
    };
    let a = setup::write_setup(side, out);
    if a.number == 0 {
        *size = a.length;
    }
    a.number
}

// What follows from the setup data of both sides.
#[tactic(auto, unfolding(crate::specs::Words::agree_words_answer, crate::specs::Words::agreement_words))]
pub fn eos_agree(client: &[u32; 3], server: &[u32; 3], agreement: &mut [u32; 3]) -> u32
    ensures answer { result ≡ (agree_words_answer client.now server.now).number }
    ensures agreement { agreement.new ≡ unless_refused (agree_words_answer client.now server.now).number (agreement_words (agree_words_answer client.now server.now)) agreement.old }
{
    let held = setup_in(client);
    let Ok(client_side) = held else {
        return answers::number(held);
    };
    let held = setup_in(server);
    let Ok(server_side) = held else {
        return answers::number(held);
    };
    let a = setup::agree(client_side, server_side);
    if a.number == 0 {
        *agreement = [
            a.client_to_server.0,
            a.server_to_client.0,
            u32::from(a.remote_invalidation),
        ];
    }
    a.number
}
