// The repaired log in marks alone: request (iv) of document 02, and refusal 15. It runs the parse, and then walks over the edit records:
// kept tokens are copied, and for each inserted symbol the string of its cheapest rules is written.
#![tactic(auto)]

ghost use Rattle.std.specs.Prelude.{true, ◌≡◌, ◌+◌, ◌≤◌, ◌<◌, length};
ghost use Rattle.base.specs.Telling.{Tells};
ghost use Rattle.grammar.specs.Marks.{Marks, MarksAnswer};
ghost use Rattle.grammar.specs.Refusals.{outcome_of};
ghost use Rattle.grammar.specs.Run.{only10};
ghost use Rattle.marks.specs.Answer.{Named, PutOf, word_by};
ghost use Rattle.marks.specs.Marking.{
  CanAdd,
  CanPut,
  CanRestore,
  CanSize,
  Copied,
  PutAs,
  RestoredAs,
  WroteAdded,
};
ghost use Rattle.marks.specs.Restoring.{Names, added_by, behind_by, needed};

use grammar::{Counts, Refusal};
use parser::Asking;
use strings::Strings;

// "Kind (1 delete, 2 insert)." Kept: kinds stand in lent buffers as numbers (C interface).
const DELETE: u16 = 1;

// Writes the repaired log of a log, from unchecked grammar words, in marks alone: kept tokens, and for each inserted symbol the string that
// its cheapest rules give. It runs the parse and leaves in the first two buffers what the parse leaves. Any refusal, 15 too, leaves all three
// zero.
pub fn marks(
    words: &[u16],
    log: &[u16],
    edits: &mut [u16],
    rules: &mut [u16],
    tokens: &mut [u16],
) -> Result<(Counts, usize), Refusal>
    ensures { MarksAnswer words.now log.now (length edits.old) (length rules.old)
        (length tokens.old) (outcome_of result) edits.new rules.new tokens.new }
{
    marks_as(words, log, true, log, 0, edits, rules, tokens)
}

// The same for a caller that asks something more under refusal 10, and that wants to tell kept marks from added ones: a kept mark is the
// word that `kept` has for its place, an added one its token and `raise`.
pub fn marks_as(
    words: &[u16],
    log: &[u16],
    asked: bool,
    kept: &[u16],
    raise: u16,
    edits: &mut [u16],
    rules: &mut [u16],
    tokens: &mut [u16],
) -> Result<(Counts, usize), Refusal>
    requires { Named log.now kept.now raise }
    ensures { Marks (word_by kept.now raise) (only10 (asked ≡ true)) words.now log.now
        (length edits.old) (length rules.old) (length tokens.old) (outcome_of result) edits.new
        rules.new tokens.new }
{
    let mut prices = [0u32; 256];
    let mut sides = [0u64; 512];
    // It times nothing, so any unit will do.
    let asking = Asking {
        timed: asked,
        paced: true,
    };
    let parsing = parser::parse_tabled(words, log, asking, &mut prices, &mut sides, edits, rules);
    // Kept: no `?`, as a refusal leaves the tokens zero.
    match parsing {
        Ok(counts) => {
            let result = put_marks(
                words,
                &prices,
                &sides,
                edits,
                counts.records,
                kept,
                raise,
                tokens,
            );
            match result {
                Some(size) => {
                    base::fill_from(tokens, size, 0);
                    Ok((counts, size))
                }
                None => {
                    base::fill_from(edits, 0, 0);
                    base::fill_from(rules, 0, 0);
                    base::fill_from(tokens, 0, 0);
                    Err(Refusal::ShortTokens)
                }
            }
        }
        Err(refusal) => {
            base::fill_from(tokens, 0, 0);
            Err(refusal)
        }
    }
}

// ---- The result of a run that ended

// Puts the result into the buffer, if it fits. A log without edits is its own result, and needs no strings.
fn put_marks(
    words: &[u16],
    prices: &[u32],
    sides: &[u64],
    edits: &[u16],
    records: usize,
    kept: &[u16],
    raise: u16,
    tokens: &mut [u16],
) -> Option<usize>
    requires { CanPut words.now prices.now sides.now edits.now records kept.now raise }
    ensures { PutAs words.now edits.now records kept.now raise tokens.old
        tokens.new result }
{
    if records == 0 {
        return put_log(kept, tokens);
    }
    let mut table = [0u64; 64];
    let mut lengths = [0usize; 64];
    let depth = shape::nonterminal_count(words);
    strings::gather(words, prices, sides, &mut table);
    let strings = Strings::new(&table, depth, &mut lengths);
    let records = &edits[..3 * records];
    if !fits(records, &strings, kept.len(), tokens.len()) {
        return None;
    }
    Some(restore(&strings, records, kept, raise, tokens))
}

// The result of a log without edits.
fn put_log(kept: &[u16], tokens: &mut [u16]) -> Option<usize>
    ensures { PutOf kept.now tokens.old tokens.new result }
{
    if tokens.len() < kept.len() {
        return None;
    }
    Some(copy(kept, tokens, 0))
}

// Whether so many words hold the result: decided by the lengths of the strings, before a word is written. What is left of the room is
// counted down, so that no sum can grow too large.
fn fits(records: &[u16], strings: &Strings<'_>, tokens: usize, room: usize) -> bool
    requires { CanSize records.now strings.now.lengths tokens }
    ensures { Tells (needed strings.now.lengths tokens 0 records.now ≤ room) result }
{
    let mut left = room;
    let mut place = 0;
    for record in records.chunks_exact(3) {
        let at = usize::from(record[1]);
        let size = at - place + added(strings, record[0], record[2]);
        if left < size {
            return false;
        }
        left -= size;
        place = behind(record[0], at);
    }
    tokens.saturating_sub(place) <= left
}

// How many tokens a record adds.
fn added(strings: &Strings<'_>, kind: u16, symbol: u16) -> usize
    requires { Names kind symbol }
    ensures { result ≡ added_by strings.now.lengths kind symbol }
{
    if kind == DELETE {
        return 0;
    }
    strings.length_of(usize::from(symbol))
}

// The first place that a record leaves to be passed: a deleted token is passed by it.
fn behind(kind: u16, at: usize) -> usize
    requires { at < 65536 }
    ensures { result ≡ behind_by kind at }
{
    if kind == DELETE {
        return at + 1;
    }
    at
}

// Writes the result, which fits, and gives its length.
fn restore(
    strings: &Strings<'_>,
    records: &[u16],
    kept: &[u16],
    raise: u16,
    tokens: &mut [u16],
) -> usize
    requires { CanRestore strings.now records.now kept.now raise tokens.old }
    ensures { RestoredAs strings.now.rights strings.now.depth records.now kept.now raise
        tokens.old tokens.new result }
{
    let mut place = 0;
    let mut end = 0;
    for record in records.chunks_exact(3) {
        let at = usize::from(record[1]);
        let next = copy(&kept[place..at], tokens, end);
        end = add(strings, record[0], record[2], raise, tokens, next);
        place = behind(record[0], at);
    }
    copy(&kept[place.min(kept.len())..], tokens, end)
}

// Writes what a record adds, and gives where it ends.
fn add(
    strings: &Strings<'_>,
    kind: u16,
    symbol: u16,
    raise: u16,
    tokens: &mut [u16],
    at: usize,
) -> usize
    requires { CanAdd strings.now kind symbol raise tokens.old at }
    ensures { WroteAdded strings.now.rights strings.now.depth kind symbol raise tokens.old at
        tokens.new result }
{
    if kind == DELETE {
        return at;
    }
    strings.spell(symbol, raise, tokens, at)
}

// Copies words into the buffer from a place on, and gives where they end.
fn copy(part: &[u16], tokens: &mut [u16], at: usize) -> usize
    requires { at + length part.now ≤ length tokens.old }
    ensures { Copied part.now tokens.old at tokens.new result }
{
    // Kept: by the index, as the library's copy would have the archive for C call memmove, and it calls memset alone.
    for (i, &word) in part.iter().enumerate() {
        tokens[at + i] = word;
    }
    at + part.len()
}
