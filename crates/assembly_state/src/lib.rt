// The state of a reassembly, as 104 words that a caller holds and lends.
#![tactic(auto)]

ghost use Rattle.std.specs.Prelude.{◌≡◌, ◌<◌};
ghost use Rattle.wire.specs.Wire.{stored};
ghost use Rattle.wire.specs.Words.{number_in, number_words};
ghost use Rattle.assembly_state.specs.Words.{state_kind, parts_in, parts_words};

use header::{ErrorKind, Kind};

// The state as 104 words that a caller lends: where each number stands. The read list comes first; base, buffer length and count have
// two words each.
pub const BASE_AT: usize = chunk_lists::MAX_READ_SEGMENTS * wire::READ_SEGMENT_WORDS;

pub const BUFFER_AT: usize = BASE_AT + 2;

pub const TAKEN_AT: usize = BUFFER_AT + 2;

pub const COUNT_AT: usize = TAKEN_AT + 2;

pub const KIND_AT: usize = COUNT_AT + 1;

// All of a state but its read segments.
#[derive(Clone, Copy)]
pub struct Parts {
    pub kind: Kind,
    pub count: u32,
    pub base: usize,
    pub buffer: usize,
    pub taken: usize,
}

// A number of 64 bits in the two words from `k` on.
fn number_in(words: &[u32; 104], k: usize) -> usize
    requires { k < 103 }
    ensures { result ≡ number_in words.now k }
{
    wire::join_words(words[k + 1], words[k]) as usize
}

// No state that can arise is of an ERROR header: a number that is neither MSG nor NOMSG stands for one.
// Stays: a function and no From; both `u32` and `Kind` are of other crates.
#[tactic(auto, unfolding(crate::specs::Words::state_kind))]
fn state_kind(number: u32) -> Kind
    ensures { result ≡ state_kind number }
{
    match number {
        header::KIND_MSG => Kind::Msg,
        header::KIND_NOMSG => Kind::Nomsg,
        _ => Kind::Error(ErrorKind::Chunk),
    }
}

// What stands behind the read list.
impl From<&[u32; 104]> for Parts {
    ghost from_gives = { λ words p. p ≡ parts_in words.now };

    #[tactic(auto, unfolding(crate::specs::Words::parts_in))]
    fn from(words: &[u32; 104]) -> Parts {
        Parts {
            kind: state_kind(words[KIND_AT]),
            count: words[COUNT_AT],
            base: number_in(words, BASE_AT),
            buffer: number_in(words, BUFFER_AT),
            taken: number_in(words, TAKEN_AT),
        }
    }
}

// Stores a number of 64 bits into the two words from `k` on.
#[tactic(auto, unfolding(wire::specs::Wire::stored))]
pub fn store_number(words: &mut [u32; 104], k: usize, x: usize)
    requires { k < 103 }
    ensures { words.new ≡ stored words.old k (number_words x) }
{
    words[k] = (x % 4294967296) as u32;
    words[k + 1] = (x / 4294967296) as u32;
}

impl Parts {
    // Stores what stands behind the read list.
    #[tactic(auto, unfolding(wire::specs::Wire::stored))]
    pub fn store(self, words: &mut [u32; 104])
        ensures { words.new ≡ stored words.old 96 (parts_words self) }
    {
        store_number(words, BASE_AT, self.base);
        store_number(words, BUFFER_AT, self.buffer);
        store_number(words, TAKEN_AT, self.taken);
        words[COUNT_AT] = self.count;
        words[KIND_AT] = header::kind_number(self.kind);
    }
}
