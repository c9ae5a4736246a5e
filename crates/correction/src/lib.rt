// A correction: the least r, then the least i, with its deletes, drops and inserts. Document 01, "Moves", and request (ii) of 02.
#![tactic(auto)]

ghost use Rattle.std.specs.Prelude.{◌≡◌, ◌+◌, ◌-◌, ◌*◌, ◌≤◌, ◌<◌, ◌^◌, length, get_or};
ghost use Rattle.grammar.specs.Theory.Tables.{sized_of};
ghost use Rattle.moves.specs.Pile.{pile};
ghost use Rattle.correction.specs.Searching.{CanSearch, SearchOf};
ghost use Rattle.correction.specs.Records.{CanRecord, Recorded};
ghost use Rattle.correction.specs.Popping.{CanPop, PoppedOf};
ghost use Rattle.correction.specs.Corrections.{CanCorrect, CorrectedOf};

use moves::Parser;

// The token at a place: "behind [the log] stands END".
pub fn token_at(log: &[u16], place: usize) -> u16
    ensures { result ≡ get_or log.now place 0 }
{
    log.get(place).copied().unwrap_or(0)
}

// Where the table of prices has what a cost must stay below for each token, behind the costs of 128 symbols and the cheapest rules of 64.
const LIMITS: usize = 192;

// "The search for r and i yields either a hit with both numbers or nothing to use at this token": by popping how many symbols the token at
// place r can be used. One walk down the stack, as far as the cost stays below the token's reliability. The contract alone reads the words.
fn seek(
    words: &[u16],
    log: &[u16],
    masks: &[u64],
    prices: &[u32],
    stack: &[u16],
    height: usize,
    r: usize,
) -> Option<usize>
    requires { CanSearch (sized_of words.now) log.now masks.now prices.now stack.now height }
    ensures { SearchOf (sized_of words.now) (pile stack.now height) (get_or log.now r 0) result }
{
    let t = token_at(log, r);
    let limit = prices[LIMITS + usize::from(t)];
    let mut cost: u32 = 0;
    // Kept: by the place from the top down. By a count of the symbols passed, or with an iterator, foreign tokens deep in a stack took a
    // quarter longer and more.
    for k in (0..height).rev() {
        if limit <= cost {
            return None;
        }
        let symbol = stack[k];
        if moves::begins(masks, symbol, t) {
            return Some(height - 1 - k);
        }
        cost += prices[usize::from(symbol)];
    }
    None
}

// "A record is written only where all three words fit."
fn write_record(edits: &mut [u16], records: usize, kind: u16, place: usize, symbol: u16)
    requires { CanRecord records place }
    ensures { Recorded edits.old records kind place symbol edits.new }
{
    let at = 3 * records;
    if at + 3 <= edits.len() {
        edits[at] = kind;
        edits[at + 1] = place as u16;
        edits[at + 2] = symbol;
    }
}

// Pops the i topmost symbols, top first. "A popped symbol that can be empty becomes a drop move, with no edit record"; any other is
// inserted before place r, the current one.
fn pop(masks: &[u64], stack: &[u16], edits: &mut [u16], p: Parser, i: usize) -> Parser
    requires { CanPop masks.now stack.now p i }
    ensures { PoppedOf masks.now stack.now edits.old p p.place i result edits.new }
{
    let r = p.place;
    let mut q = p;
    // Kept: by the place, as with an iterator from the top down foreign tokens deep in a stack took a fifth longer.
    for k in 0..i {
        let symbol = stack[p.height - 1 - k];
        if moves::empty(masks, symbol) {
            q = q.dropped();
        } else {
            write_record(edits, q.records, 2, r, symbol);
            q = q.inserted();
        }
    }
    q
}

// "Take the least place r .. for that r take the least i. Each token from the current place to r-1 is a delete move." Each of
// A1..Ai-1, top first, is a drop move or an insert move. One of its records does not fit exactly where the last does not: then there is no
// state behind it.
pub fn correct(
    words: &[u16],
    log: &[u16],
    masks: &[u64],
    prices: &[u32],
    stack: &[u16],
    edits: &mut [u16],
    p: Parser,
) -> Option<Parser>
    requires { CanCorrect (sized_of words.now) log.now masks.now prices.now stack.now p }
    ensures { CorrectedOf (sized_of words.now) log.now stack.now edits.old p
        edits.new result }
{
    let mut q = p;
    loop {
        let Some(i) = seek(words, log, masks, prices, stack, q.height, q.place) else {
            write_record(edits, q.records, 1, q.place, token_at(log, q.place));
            q = q.deleted();
            continue;
        };
        let u = pop(masks, stack, edits, q, i);
        if edits.len() < 3 * u.records {
            return None;
        }
        return Some(u);
    }
}
