// A ledger of credits: the calls in flight, the grant, the last xid given. Public: MAX_IN_FLIGHT, Ledger, OpenAnswer, open_ledger,
// SendAnswer, send, reply.
#![tactic(auto)]

ghost use Rattle.std.specs.Prelude.{◌≡◌, ◌+◌, ◌<◌, ◌≤◌, [], ◌∷◌, ◌++◌, length, take, drop, position, ◌==◌};
ghost use Rattle.answers.specs.Refusals.{numbered};
ghost use Rattle.ledger.specs.Ledger.{padded, is_in, any_twice, unfit, max_in_flight, xid_after, first_free, xids_behind, run_length, open_answer, send_answer, send_ledger, reply_number, reply_ledger};
ghost use Rattle.ledger.specs.Internal.Search.{rising};
ghost use Rattle.ledger.specs.Internal.Outcomes.{sent, replied};

use answers::Refusal;

// "Room for 32 calls in flight"
pub const MAX_IN_FLIGHT: usize = 32;

// The xids of the calls in flight in sending order, how many they are, the grant, and the last xid given.
// Stays: a row and a count, as `eos_ledger_open`, `eos_ledger_send` and `eos_ledger_reply` are lent it by C.
#[repr(C)]
#[derive(Clone, Copy)]
pub struct Ledger {
    pub xids: [u32; 32],
    pub count: u32,
    pub grant: u32,
    pub last: u32,
}

// Stays: README has `open_ledger` with this answer, its number beside the ledger.
#[derive(Clone, Copy)]
pub struct OpenAnswer {
    pub ledger: Ledger,
    pub number: u32,
}

// What a send is answered with: the number, and with 0 the xid of the call and how many xids were passed over.
// Stays: `eos_ledger_send` hands it to C.
#[repr(C)]
#[derive(Clone, Copy)]
pub struct SendAnswer {
    pub number: u32,
    pub xid: u32,
    pub passed: u32,
}

// What the search for an xid finds, and how many xids it passed over.
#[derive(Clone, Copy)]
pub struct FoundXid {
    pub xid: u32,
    pub passed: u32,
}

// A ledger with no call in flight, for a sender that last gave the xid `last`.
#[tactic(auto, unfolding(crate::specs::Ledger::open_answer))]
pub fn open_ledger(last: u32) -> OpenAnswer
    ensures { result ≡ open_answer last }
{
    OpenAnswer {
        ledger: Ledger {
            xids: [0; 32],
            count: 0,
            grant: 1,
            last,
        },
        number: 0,
    }
}

// Where an xid stands in a list.
fn place_of(list: &[u32], xid: u32) -> Option<usize>
    ensures { result ≡ position (λ x. xid == x) list.now }
{
    list.iter().position(|x| xid == *x)
}

// Whether an xid is in a list.
fn holds(list: &[u32], xid: u32) -> bool
    ensures { result ≡ is_in xid list.now }
{
    // To the end in any case, so that several are compared at once.
    let mut met = false;
    for x in list {
        met |= xid == *x;
    }
    met
}

// Whether each xid is above the one before it.
fn is_rising(list: &[u32]) -> bool
    ensures { result ≡ rising list.now }
{
    // To the end in any case, as above.
    // Stays: a loop by its index. With 15 in flight `windows(2)` takes 23 instructions more and `zip` 16, and a reply then more than the 1.5 times plain Rust's that were asked.
    let mut rise = true;
    for i in 1..list.len() {
        rise &= list[i - 1] < list[i];
    }
    rise
}

// Whether one xid stands in a list twice.
fn any_twice(list: &[u32]) -> bool
    ensures { result ≡ any_twice list.now }
{
    // Xids in sending order rise, unless one from before a wrap is still in flight: one comparison each.
    !is_rising(list)
        && list
            .iter()
            .enumerate()
            .any(|(i, xid)| holds(&list[i + 1..], *xid))
}

// Whether a ledger gets 17, whatever its last xid.
// Stays: parts, and not a ledger, which would be copied once more: a reply with one call in flight took 184 instructions so, and 145 with parts.
#[tactic(auto, unfolding(crate::specs::Ledger::unfit))]
fn is_unfit(xids: &[u32; 32], count: u32, grant: u32) -> bool
    ensures { result ≡ unfit (record { xids = xids.now; count = count; grant = grant; last = 0 }) }
{
    let n = count as usize;
    MAX_IN_FLIGHT < n || grant == 0 || any_twice(&xids[..n])
}

// The next xid behind the last that is not in the list, and how many in the list were passed over.
#[tactic(auto, using(crate::proofs::Searching::seeking_next, crate::proofs::Searching::seeking_room, crate::proofs::Searching::seeking_ends))]
fn next_xid(list: &[u32], last: u32) -> FoundXid
    requires { length list.now < 32 }
    ensures { result ≡ record { xid = first_free (length list.now) (xid_after last) list.now; passed = run_length (xids_behind max_in_flight last) list.now } }
{
    let mut xid = last.wrapping_add(1);
    let mut passed = 0;
    while holds(list, xid) {
        xid = xid.wrapping_add(1);
        passed += 1;
    }
    FoundXid { xid, passed }
}

// Zeros behind the first n xids.
// Stays: a loop, which becomes one `memset`; `fill` stores its last element by itself, and the record is then read across it.
fn clear(xids: &mut [u32; 32], n: usize)
    requires { n ≤ 32 }
    ensures { xids.new ≡ padded (take n xids.old) }
{
    for i in n..MAX_IN_FLIGHT {
        xids[i] = 0;
    }
}

// One more xid behind the first n, and zeros behind it.
fn join(xids: &mut [u32; 32], n: usize, xid: u32)
    requires { n < 32 }
    ensures { xids.new ≡ padded (take n xids.old ++ xid ∷ []) }
{
    xids[n] = xid;
    clear(xids, n + 1);
}

// The first n xids without that at place p: those behind it close the gap, and zeros stand behind them.
fn leave(xids: &mut [u32; 32], n: usize, p: usize)
    requires { (p < n) × (n ≤ 32) }
    ensures { xids.new ≡ padded (take p (take n xids.old) ++ drop (p + 1) (take n xids.old)) }
{
    xids.copy_within(p + 1..n, p);
    clear(xids, n - 1);
}

// A send, by value: the ledger after it, and the xid that was found.
#[tactic(auto, unfolding(crate::specs::Ledger::unfit, crate::specs::Ledger::send_number, crate::specs::Ledger::spent, crate::specs::Ledger::next_xid, crate::specs::Ledger::passed_over, crate::specs::Ledger::send_ledger))]
fn sent(ledger: Ledger) -> Result<(Ledger, FoundXid), Refusal>
    ensures { numbered result ≡ sent ledger }
{
    let mut xids = ledger.xids;
    if is_unfit(&xids, ledger.count, ledger.grant) {
        return Err(Refusal::StateUnfit);
    }
    let n = ledger.count as usize;
    if ledger.grant <= ledger.count || MAX_IN_FLIGHT <= n {
        return Err(Refusal::CreditSpent);
    }
    let found = next_xid(&xids[..n], ledger.last);
    join(&mut xids, n, found.xid);
    let after = Ledger {
        xids,
        count: ledger.count + 1,
        grant: ledger.grant,
        last: found.xid,
    };
    Ok((after, found))
}

// Sends a call: takes the next xid, and says how many were passed over. The ledger is changed where it lies.
#[tactic(auto, unfolding(crate::specs::Ledger::send_answer, crate::specs::Ledger::send_ledger))]
pub fn send(ledger: &mut Ledger) -> SendAnswer
    ensures answer { result ≡ send_answer ledger.old }
    ensures ledger { ledger.new ≡ send_ledger ledger.old }
{
    match sent(*ledger) {
        Ok((after, found)) => {
            *ledger = after;
            SendAnswer {
                number: 0,
                xid: found.xid,
                passed: found.passed,
            }
        }
        Err(refusal) => SendAnswer {
            number: u32::from(refusal),
            xid: 0,
            passed: 0,
        },
    }
}

// A reply, by value: the ledger after it.
#[tactic(auto, using(crate::proofs::Steps::found, crate::proofs::Steps::not_found), unfolding(crate::specs::Ledger::unfit, crate::specs::Ledger::reply_number, crate::specs::Ledger::reply_ledger))]
fn replied(ledger: Ledger, xid: u32, grant: u32) -> Result<Ledger, Refusal>
    ensures { numbered result ≡ replied ledger xid grant }
{
    let mut xids = ledger.xids;
    if is_unfit(&xids, ledger.count, ledger.grant) {
        return Err(Refusal::StateUnfit);
    }
    if grant == 0 {
        return Err(Refusal::GrantZero);
    }
    let n = ledger.count as usize;
    let p = place_of(&xids[..n], xid).ok_or(Refusal::XidUnknown)?;
    leave(&mut xids, n, p);
    Ok(Ledger {
        xids,
        count: ledger.count - 1,
        grant,
        last: ledger.last,
    })
}

// Takes a reply: the call leaves, and the grant is set. The ledger is changed where it lies.
#[tactic(auto, unfolding(crate::specs::Ledger::reply_ledger))]
pub fn reply(ledger: &mut Ledger, xid: u32, grant: u32) -> u32
    ensures answer { result ≡ reply_number ledger.old xid grant }
    ensures ledger { ledger.new ≡ reply_ledger ledger.old xid grant }
{
    match replied(*ledger, xid, grant) {
        Ok(after) => {
            *ledger = after;
            0
        }
        Err(refusal) => u32::from(refusal),
    }
}
