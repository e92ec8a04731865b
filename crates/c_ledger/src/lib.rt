// The ledger of credits, for C: it is lent by pointer and changed where it lies.
#![tactic(auto)]

ghost use Rattle.std.specs.Prelude.{◌≡◌};
ghost use Rattle.ledger.specs.Ledger.{open_answer, send_answer, send_ledger, reply_number, reply_ledger};

use ledger::{Ledger, SendAnswer};

// Opens a ledger with no call in flight.
pub fn eos_ledger_open(last: u32, ledger: &mut Ledger) -> u32
    ensures answer { result ≡ (open_answer last).number }
    ensures ledger { ledger.new ≡ (open_answer last).ledger }
{
    let opened = ledger::open_ledger(last);
    *ledger = opened.ledger;
    opened.number
}

// Sends a call: takes the next xid, and says how many were passed over.
pub fn eos_ledger_send(ledger: &mut Ledger) -> SendAnswer
    ensures answer { result ≡ send_answer ledger.old }
    ensures ledger { ledger.new ≡ send_ledger ledger.old }
{
    ledger::send(ledger)
}

// Takes a reply: the call leaves, and the grant is set.
pub fn eos_ledger_reply(ledger: &mut Ledger, xid: u32, grant: u32) -> u32
    ensures answer { result ≡ reply_number ledger.old xid grant }
    ensures ledger { ledger.new ≡ reply_ledger ledger.old xid grant }
{
    ledger::reply(ledger, xid, grant)
}
