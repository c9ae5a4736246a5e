// What standard input holds: document 01, "The printed listing", first half.
ghost use Rattle.std.specs.Prelude.{◌≡◌, ◌≤◌, length, drop};
ghost use Rattle.grammar.specs.Listing.{ticks_from, tokens_from};
ghost use Rattle.grammar.specs.Refusals.{outcome_of};
ghost use Rattle.listing.specs.Answer.{InputCounted, TakenApart, Wrote};

use grammar::Refusal;

// How many words, tokens and ticks an input was taken apart into.
#[derive(Clone, Copy, Debug, PartialEq, Eq)]
pub struct Parts {
    pub words: usize,
    pub tokens: usize,
    pub ticks: usize,
}

// The block count stands in the first two bytes.
const COUNT_BYTES: usize = 2;

const BLOCK_BYTES: usize = 512;

const MOST_BLOCKS: usize = 11;

// An entry: a token of two bytes, and behind it a tick of four.
const ENTRY_BYTES: usize = 6;

// Takes an input apart: the words of its file, its tokens and its ticks, each to the front of a buffer and as many as fit. Or gives the
// refusal of its count or its file.
pub fn take_apart(
    input: &[u8],
    words: &mut [u16],
    tokens: &mut [u16],
    ticks: &mut [u32],
) -> Result<Parts, Refusal>
    ensures { TakenApart input.now words.old tokens.old ticks.old result
        words.new tokens.new ticks.new }
{
    let end = blocks_of(input)?;
    let count = file::read(&input[COUNT_BYTES..end], words)?;
    let entries = &input[end..];
    Ok(Parts {
        words: count,
        tokens: tokens_from(entries, tokens),
        ticks: ticks_from(entries, ticks),
    })
}

// Where the blocks end; or refusal 1, for a bad count, a count cut short, no input or missing blocks.
fn blocks_of(input: &[u8]) -> Result<usize, Refusal>
    ensures { InputCounted input.now (outcome_of result) }
{
    if input.len() < COUNT_BYTES {
        return Err(Refusal::BadSize);
    }
    let count = usize::from(u16::from_le_bytes([input[0], input[1]]));
    let end = COUNT_BYTES + BLOCK_BYTES * count;
    if count == 0 || MOST_BLOCKS < count || input.len() < end {
        return Err(Refusal::BadSize);
    }
    Ok(end)
}

// Writes the tokens of entries into the buffer, as many as fit, and gives their number. An entry that is cut short has a token; a byte
// past the end counts as 0.
fn tokens_from(entries: &[u8], tokens: &mut [u16]) -> usize
    ensures { Wrote tokens.old (tokens_from entries.now 0) tokens.new result }
{
    let count = tokens.len().min(entries.len().div_ceil(ENTRY_BYTES));
    for (i, token) in tokens[..count].iter_mut().enumerate() {
        let at = ENTRY_BYTES * i;
        *token = u16::from_le_bytes([entries[at], entries.get(at + 1).copied().unwrap_or(0)]);
    }
    count
}

// Writes the ticks of entries into the buffer, as many as fit, and gives their number. An entry that is cut short has no tick.
// Kept beside `tokens_from`: one function for both would take the count, the type and a closure for the value, and save one line.
fn ticks_from(entries: &[u8], ticks: &mut [u32]) -> usize
    ensures { Wrote ticks.old (ticks_from entries.now 0) ticks.new result }
{
    let count = ticks.len().min(entries.len() / ENTRY_BYTES);
    for (i, tick) in ticks[..count].iter_mut().enumerate() {
        let at = ENTRY_BYTES * i;
        *tick = u32::from_le_bytes([
            entries[at + 2],
            entries[at + 3],
            entries[at + 4],
            entries[at + 5],
        ]);
    }
    count
}
