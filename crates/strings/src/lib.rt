// The string of a nonterminal's cheapest rules: request (iv) of document 02. A table has the right side of each nonterminal's cheapest
// rule in one word; from it a table of lengths is made, and any string is spelled. What the table spells, and that it is the string of
// the definitions, stands in specs/.
#![tactic(auto)]

ghost use Rattle.std.specs.Prelude.{◌≡◌, ◌<◌, ◌≤◌, length};
ghost use Rattle.grammar.specs.Words.{nonterminal_count};
ghost use Rattle.grammar.specs.Theory.Closed.{total};
ghost use Rattle.strings.specs.Gathering.{CanGather, Gathered};
ghost use Rattle.strings.specs.Lengths.{
  CanMeasure,
  CanRound,
  CanSum,
  Measured,
  Renewed,
  Rounded,
};
ghost use Rattle.strings.specs.Spelling.{length_in, members};
ghost use Rattle.strings.specs.Ready.{CanWrite, Ready};
ghost use Rattle.strings.specs.Work.{CanSpell, Spelt};

use std::marker::Model;

// Where the parser's tables have the cheapest rules, and where the right sides.
const RULES: usize = 128;

const RIGHTS: usize = 256;

// What measures and spells strings: a table of right sides, for how many nonterminals, and the lengths.
#[derive(Drop)]
pub struct Strings<'a> {
    table: &'a [u64],
    depth: usize,
    lengths: &'a [usize],
}

impl<'a> Model for Strings<'a> {
    ghost use Rattle.strings.specs.Ready.{Ready, Tables};

    ghost Value = { Tables };

    ghost view = { λ s. record { rights = s.table.now; depth = s.depth; lengths = s.lengths.now } };

    ghost invariant = { λ s. Ready (record { rights = s.table.now; depth = s.depth; lengths = s.lengths.now }) };
}

impl<'a> Strings<'a> {
    // The lengths are lent, all zero, and filled.
    pub fn new(table: &'a [u64], depth: usize, lengths: &'a mut [usize]) -> Self
        requires { CanMeasure table.now depth lengths.old }
        ensures rights { result.rights ≡ table.now }
        ensures depth { result.depth ≡ depth }
        ensures ready { Ready result }
    {
        crate::lengths(table, depth, lengths);
        Strings {
            table,
            depth,
            lengths,
        }
    }

    // The length of a symbol's string.
    pub fn length_of(&self, symbol: usize) -> usize
        requires { symbol < 128 }
        ensures { result ≡ length_in self.now.lengths symbol }
    {
        crate::length_of(self.lengths, symbol)
    }

    // Writes the string of a symbol into the buffer from a place on, each token raised, and gives where it ends.
    pub fn spell(&self, symbol: u16, raise: u16, tokens: &mut [u16], at: usize) -> usize
        requires { CanWrite self.now symbol raise tokens.old at }
        ensures { Spelt self.now.rights self.now.depth symbol raise tokens.old at tokens.new result }
    {
        crate::spell(
            self.table,
            self.depth,
            self.lengths,
            symbol,
            raise,
            tokens,
            at,
        )
    }
}

// ---- The table

// Fills the table from the parser's tables: entry k is the right side of the cheapest rule of nonterminal 64 + k.
pub fn gather(words: &[u16], prices: &[u32], sides: &[u64], table: &mut [u64])
    requires { CanGather words.now prices.now sides.now table.old }
    ensures { Gathered (nonterminal_count words.now) prices.now sides.now
        table.old table.new }
{
    let count = shape::nonterminal_count(words);
    for k in 0..count {
        table[k] = sides[RIGHTS + prices[RULES + k] as usize];
    }
}

// ---- Lengths

// Fills the table of lengths, which is all zero, for the first `depth` nonterminals. Each round looks one right side deeper than the one
// before; a round that changes nothing is the last.
pub fn lengths(table: &[u64], depth: usize, lengths: &mut [usize])
    requires { CanMeasure table.now depth lengths.old }
    ensures { Measured table.now depth lengths.new }
{
    let mut next = [0usize; 64];
    for _d in 0..depth {
        round(table, depth, lengths, &mut next);
        if !renew(depth, &next, lengths) {
            return;
        }
    }
}

// One round: the lengths of right sides whose members have the lengths of the round before.
fn round(table: &[u64], count: usize, lengths: &[usize], next: &mut [usize])
    requires { CanRound table.now count lengths.now next.old }
    ensures { Rounded table.now count lengths.now next.old next.new }
{
    for (k, &right) in table[..count].iter().enumerate() {
        next[k] = sum_of(lengths, right);
    }
}

// Takes the next lengths over: whether one of them changes.
fn renew(count: usize, next: &[usize], lengths: &mut [usize]) -> bool
    requires count_in_bounds { count ≤ length next.now }
    requires count_in_bounds_2 { count ≤ length lengths.old }
    ensures { Renewed count next.now lengths.old lengths.new result }
{
    let mut changed = false;
    // Kept: by the index, as the library's copy would have the archive for C call memcpy, and it calls memset alone.
    for (k, &new) in next[..count].iter().enumerate() {
        if lengths[k] != new {
            changed = true;
        }
        lengths[k] = new;
    }
    changed
}

// The sum over a right side.
fn sum_of(lengths: &[usize], right: u64) -> usize
    requires { CanSum lengths.now right }
    ensures { result ≡ total (length_in lengths.now) (members right) }
{
    let mut left = right;
    let mut sum: usize = 0;
    while 0 < left {
        sum += length_of(lengths, (left % 256) as usize);
        left /= 256;
    }
    sum
}

// The length of a symbol's string, by the table: a terminal is its own.
pub fn length_of(lengths: &[usize], symbol: usize) -> usize
    requires lengths_len { length lengths.now ≡ 64 }
    requires symbol_bound { symbol < 128 }
    ensures { result ≡ length_in lengths.now symbol }
{
    if symbol < 64 {
        return 1;
    }
    lengths[symbol - 64]
}

// ---- Strings

// Writes the string of a symbol into the buffer from a place on, each token raised, and gives where it ends. What stands behind a
// nonterminal waits on a stack; what spells nothing is never begun, so that no time goes into it.
pub fn spell(
    table: &[u64],
    depth: usize,
    lengths: &[usize],
    symbol: u16,
    raise: u16,
    tokens: &mut [u16],
    at: usize,
) -> usize
    requires { CanSpell table.now depth lengths.now symbol raise tokens.old at }
    ensures { Spelt table.now depth symbol raise tokens.old at tokens.new result }
{
    // Kept: an array with its height, as memory is fixed (no heap).
    let mut stack = [0u64; 64];
    let mut h = 0;
    let mut left = u64::from(symbol);
    let mut end = at;
    loop {
        if left == 0 {
            if h == 0 {
                return end;
            }
            h -= 1;
            left = stack[h];
        } else {
            let x = (left % 256) as usize;
            left /= 256;
            if x < 64 {
                tokens[end] = x as u16 + raise;
                end += 1;
            } else if 0 < lengths[x - 64] {
                stack[h] = left;
                h += 1;
                left = table[x - 64];
            }
        }
    }
}
