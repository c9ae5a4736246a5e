// The answers that documents 01 and 02 name. What they mean stands in specs/, in the documents' order and words.
#![tactic(auto)]

ghost use Rattle.std.specs.Prelude.{◌≡◌};
ghost use Rattle.grammar.specs.Refusals.{number_of};

// Document 01, "Refusal numbers", and the refusals of document 02, each with its number. `number_of` of specs/Refusals.antt says which number
// each has.
#[derive(Clone, Copy, Debug, PartialEq, Eq)]
pub enum Refusal {
    // The file is empty, not a multiple of 512, or over 5,632 bytes.
    BadSize = 1,
    // Some block's check is wrong.
    BadCheck = 2,
    // Some block number, use count or unused word is wrong.
    BadBlock = 3,
    // The word buffer is shorter than the file's words.
    ShortWords = 4,
    // The grammar words break the shape.
    BadShape = 5,
    // A nonterminal is unreachable.
    Unreachable = 6,
    // A nonterminal derives no terminal string.
    NoString = 7,
    // A nonterminal costs over 60,000.
    TooCostly = 8,
    // Two rules share a predict token.
    SharedPredict = 9,
    // Over 4,096 tokens, a token outside 1..T-1, or ticks and tokens differ in number.
    BadLog = 10,
    // An expand would leave more than 256 symbols on the stack, END counted.
    StackFull = 11,
    // The next rule number or edit record does not fit.
    NoRoom = 12,
    // There are no words to write, or more than 2,783.
    BadCount = 13,
    // The byte buffer is shorter than the file.
    ShortBytes = 14,
    // The token buffer is shorter than the repaired log in marks alone.
    ShortTokens = 15,
    // The tick unit is 1, of which no pace comes and which is not written.
    Hundredths = 16,
    // A buffer of the setup desk has fewer words than there are nonterminals.
    ShortDesk = 23,
}

// The number of a refusal, as C and the listing have it.
impl From<Refusal> for u32 {
    ghost from_gives = { λ refusal number. number ≡ number_of refusal };

    fn from(refusal: Refusal) -> u32 {
        refusal as u32
    }
}

// Document 01, "Moves": what a run counts: moves, edit records and rule numbers listed.
#[derive(Clone, Copy, Debug, PartialEq, Eq)]
pub struct Counts {
    pub moves: usize,
    pub records: usize,
    pub listed: usize,
}

// Document 01, "Pace": a station without a clean cycle is idle and carries no time.
#[derive(Clone, Copy, Debug, PartialEq)]
pub enum Pace {
    Idle,
    Mean(f64),
}

// Document 01, "Pace": the count of clean cycles, the sum of their times in ms, and a pace.
#[derive(Clone, Copy, Debug, PartialEq)]
pub struct Report {
    pub count: u32,
    pub sum: u64,
    pub pace: Pace,
}
