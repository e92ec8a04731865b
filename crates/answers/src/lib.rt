// The answer numbers, each named once, in the table's order; and what every writer answers. Public: Refusal, WriteAnswer.
#![tactic(auto)]

ghost use Rattle.std.specs.Prelude.{◌≡◌};
ghost use Rattle.answers.specs.Refusals.{refusal_number, outcome_number, written_answer};

// Why a call is refused, with the number that the call then answers. 0 is "done".
#[derive(Clone, Copy)]
pub enum Refusal {
    // "frame under 16 bytes"
    ShortFrame = 1,
    // "version is not 1"
    OtherVersion = 2,
    // "procedure is 2 or above 4"
    OtherProcedure = 3,
    // "procedure is 3"
    DoneReceived = 4,
    // "frame ends inside a field that must be there"
    EndsInsideField = 5,
    // "a marker word above 1"
    BadMarker = 6,
    // "an entry or count that goes over a limit above"
    OverLimit = 7,
    // "a read position below the one before it"; since order 3 "never given again", and reserved
    PositionFalls = 8,
    // "a read position that is no multiple of 4"
    PositionUnaligned = 9,
    // "error code neither 1 nor 2"
    OtherErrorCode = 10,
    // "bytes behind a NOMSG or ERROR header"
    BytesBehind = 11,
    // "kind and lists do not fit"
    KindAndLists = 12,
    // "base length no multiple of 4"
    BaseUnaligned = 13,
    // "a chunk's position overlaps or lies past the base"
    ChunkOverlaps = 14,
    // "message above 1,048,576 bytes"
    MessageLong = 15,
    // "output buffer too short"
    BufferShort = 16,
    // "state not one that can arise, or another buffer length than at the start"; of order 5: "A ledger with more in flight, one xid
    // twice or grant 0"
    StateUnfit = 17,
    // "piece longer than what is still to be pulled"
    PieceLong = 18,
    // "message asked for before all bytes are in"
    BytesMissing = 19,
    // "bad argument: credit limit 0, a size out of rule, an answer number above 21"
    BadArgument = 20,
    // "a header to be written is longer than 1,024 bytes"; since order 7 "never given", and reserved
    HeaderLong = 21,
    // Of order 5: "it is refused with 23 exactly if the calls in flight reach or pass the grant or 32"
    CreditSpent = 23,
    // Of order 5: "24 if the xid is not in flight"
    XidUnknown = 24,
    // Of order 5: "25 if the grant is 0"
    GrantZero = 25,
    // Of order 1: a reply that cannot answer the header that was sent; `returned` has the conditions, each under its words.
    ReplyMismatch = 26,
}

impl From<Refusal> for u32 {
    ghost from_gives = { λ r n. n ≡ refusal_number r };

    fn from(refusal: Refusal) -> u32 {
        refusal as u32
    }
}

// The number of an outcome: 0, or that of the refusal.
pub fn number<T: Drop>(outcome: Result<T, Refusal>) -> u32
    ensures { result ≡ outcome_number outcome }
{
    match outcome {
        Ok(_) => 0,
        Err(refusal) => u32::from(refusal),
    }
}

// What a writer answers: its number, and with 0 how many bytes it wrote.
// Stays: README has `write_setup`, `error_reply` and `write_header` with this answer, and `writer_answer` speaks of it.
#[derive(Clone, Copy)]
pub struct WriteAnswer {
    pub number: u32,
    pub length: usize,
}

// What a writer answers that was refused, or wrote so many bytes.
pub fn write_answer(written: Result<usize, Refusal>) -> WriteAnswer
    ensures { result ≡ written_answer written }
{
    WriteAnswer {
        number: number(written),
        length: written.unwrap_or(0),
    }
}
