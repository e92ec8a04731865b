// The connection setup data (CM Private Data) of RFC 8797, read and written, and what follows from two of them.
// Public: Size and its ends, Setup, SetupAnswer, Agreement, read_setup, write_setup, agree.
#![tactic(auto)]

ghost use Rattle.std.specs.Prelude.{◌≡◌, true, cond, length};
ghost use Rattle.answers.specs.Refusals.{written_answer};
ghost use Rattle.setup.specs.Setup.{size_of, in_rule, size_byte, is_setup, setup_at, read_setup, setup_bytes, setup_in_rule, write_setup_answer, write_setup_buffer, agreement};

use answers::{Refusal, WriteAnswer};

// "identifier f6ab0e18; version byte 1; a flags byte ..; send size; receive size"
const IDENTIFIER: u32 = 0xf6ab0e18;

const VERSION: u8 = 1;

// The flags byte of which only R is set.
const R_FLAG: u8 = 1;

const IDENTIFIER_AT: usize = 0;

const VERSION_AT: usize = 4;

const FLAGS_AT: usize = 5;

const SEND_AT: usize = 6;

const RECEIVE_AT: usize = 7;

const SETUP_BYTES: usize = 8;

// The bytes that one message may have inline.
#[derive(Clone, Copy, PartialEq, Eq, PartialOrd, Ord)]
pub struct Size(pub u32);

impl Size {
    // "a multiple of 1,024 from 1,024 to 262,144"
    pub const MIN: u32 = 1024;

    pub const MAX: u32 = 262144;

    const UNIT: u32 = 1024;

    // Whether a size is one that a size byte can mean.
    #[tactic(auto, unfolding(crate::specs::Setup::in_rule))]
    fn in_rule(self) -> bool
        ensures { result ≡ in_rule self }
    {
        Size::MIN <= self.0 && self.0 <= Size::MAX && self.0 % Size::UNIT == 0
    }

    // The byte that means a size.
    #[tactic(auto, unfolding(crate::specs::Setup::in_rule))]
    fn to_byte(self) -> u8
        requires { in_rule self ≡ true }
        ensures { result ≡ size_byte self }
    {
        (self.0 / Size::UNIT - 1) as u8
    }
}

// "A size byte n means (n + 1) × 1,024."
impl From<u8> for Size {
    ghost from_gives = { λ n size. size ≡ size_of n };

    fn from(n: u8) -> Size {
        Size((u32::from(n) + 1) * Size::UNIT)
    }
}

// What one side says of itself: R, and how much it sends and receives inline.
#[derive(Clone, Copy)]
pub struct Setup {
    pub remote_invalidation: bool,
    pub send: Size,
    pub receive: Size,
}

// "there is no setup data, which counts as R clear and 1,024 both ways"
const NO_SETUP: Setup = Setup {
    remote_invalidation: false,
    send: Size(Size::MIN),
    receive: Size(Size::MIN),
};

impl Setup {
    // Whether both sizes of a side are in rule.
    #[tactic(auto, unfolding(crate::specs::Setup::setup_in_rule))]
    fn in_rule(self) -> bool
        ensures { result ≡ setup_in_rule self }
    {
        self.send.in_rule() && self.receive.in_rule()
    }

    // The bytes of setup data that has passed its checks.
    #[tactic(auto, unfolding(crate::specs::Setup::setup_in_rule, crate::specs::Setup::setup_bytes, wire::specs::Wire::word_bytes))]
    fn to_bytes(self) -> [u8; 8]
        requires { setup_in_rule self ≡ true }
        ensures { result ≡ setup_bytes self }
    {
        let [a, b, c, d] = IDENTIFIER.to_be_bytes();
        let flags = u8::from(self.remote_invalidation);
        [
            a,
            b,
            c,
            d,
            VERSION,
            flags,
            self.send.to_byte(),
            self.receive.to_byte(),
        ]
    }
}

// Stays: README has `read_setup` with this answer, `present` and its number beside the setup data.
#[derive(Clone, Copy)]
pub struct SetupAnswer {
    pub setup: Setup,
    pub present: bool,
    pub number: u32,
}

// What holds between two sides: the inline threshold of each direction, and whether remote invalidation may be used.
// Stays: README has `agree` with this answer, its number beside what was agreed.
#[derive(Clone, Copy)]
pub struct Agreement {
    pub client_to_server: Size,
    pub server_to_client: Size,
    pub remote_invalidation: bool,
    pub number: u32,
}

// Whether these bytes begin with setup data.
#[tactic(auto, unfolding(crate::specs::Setup::is_setup))]
fn is_setup(s: &[u8]) -> bool
    ensures { result ≡ is_setup s.now }
{
    SETUP_BYTES <= s.len()
        && wire::word_at(s, IDENTIFIER_AT) == IDENTIFIER
        && s[VERSION_AT] == VERSION
}

// The setup data that these bytes begin with.
#[tactic(auto, unfolding(crate::specs::Setup::is_setup))]
fn setup_in(bytes: &[u8]) -> Option<Setup>
    ensures { result ≡ cond (is_setup bytes.now) (Some (setup_at bytes.now)) None }
{
    if !is_setup(bytes) {
        return None;
    }
    Some(Setup {
        remote_invalidation: bytes[FLAGS_AT] % 2 == R_FLAG,
        send: Size::from(bytes[SEND_AT]),
        receive: Size::from(bytes[RECEIVE_AT]),
    })
}

// Reads setup data.
#[tactic(auto, unfolding(crate::specs::Setup::read_setup))]
pub fn read_setup(bytes: &[u8]) -> SetupAnswer
    ensures { result ≡ read_setup bytes.now }
{
    let found = setup_in(bytes);
    SetupAnswer {
        setup: found.unwrap_or(NO_SETUP),
        present: found.is_some(),
        number: 0,
    }
}

// Writes setup data, and says how many bytes.
#[tactic(auto, unfolding(crate::specs::Setup::write_setup_answer, crate::specs::Setup::write_setup_buffer, crate::specs::Setup::write_setup_number, crate::specs::Setup::setup_bytes, wire::specs::Wire::word_bytes))]
fn written(side: Setup, out: &mut [u8]) -> Result<usize, Refusal>
    ensures answer { written_answer result ≡ write_setup_answer side (length out.old) }
    ensures buffer { out.new ≡ write_setup_buffer side out.old }
{
    if !side.in_rule() {
        return Err(Refusal::BadArgument);
    }
    if out.len() < SETUP_BYTES {
        return Err(Refusal::BufferShort);
    }
    out[..SETUP_BYTES].copy_from_slice(&side.to_bytes());
    Ok(SETUP_BYTES)
}

// Writes setup data at the front of a buffer and keeps the bytes behind it.
pub fn write_setup(side: Setup, out: &mut [u8]) -> WriteAnswer
    ensures answer { result ≡ write_setup_answer side (length out.old) }
    ensures buffer { out.new ≡ write_setup_buffer side out.old }
{
    answers::write_answer(written(side, out))
}

// What follows from the setup data of both sides.
#[tactic(auto, unfolding(crate::specs::Setup::agreement))]
pub fn agree(client: Setup, server: Setup) -> Agreement
    ensures { result ≡ agreement client server }
{
    if !client.in_rule() || !server.in_rule() {
        return Agreement {
            client_to_server: Size(0),
            server_to_client: Size(0),
            remote_invalidation: false,
            number: u32::from(Refusal::BadArgument),
        };
    }
    Agreement {
        client_to_server: client.send.min(server.receive),
        server_to_client: server.send.min(client.receive),
        remote_invalidation: client.remote_invalidation && server.remote_invalidation,
        number: 0,
    }
}
