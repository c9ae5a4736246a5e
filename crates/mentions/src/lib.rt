// Which rules mention a nonterminal, and which nonterminals the rules of one mention: made once for the whole check, so that a set or a
// cost that changes sends it to those rules alone. A set of rules is a row of bits, 64 in a word; word w of row r stands at 65 w + r, so that
// 64 rules take 65 words and 256 take 260.
// Kept: one list of words and no rows of their own, since its length alone says for how many rules it has room.
#![tactic(auto)]

ghost use Rattle.std.specs.Prelude.{◌≡◌, ◌<◌, ◌^◌, ℕ, get_or};
ghost use Rattle.grammar.specs.Words.{right_side, rule_count};
ghost use Rattle.base.specs.Blank.{Blank};
ghost use Rattle.mentions.specs.Mentions.{Clear, MentionsOf, UsesOf, Wide};
ghost use Rattle.mentions.specs.Putting.{HasWord, Mentioned, Named, Plain, Put};

use shape::rules::Rules;

// How many rows there are, and which one has the rules that mention no nonterminal.
pub const ROWS: usize = 65;

pub const NOTHING: usize = 64;

// Fills both tables, which hold nothing: of the first, row k has the rules that mention nonterminal k, row 64 those that mention none; of
// the second, set k has the nonterminals that the rules of k mention.
pub fn gather(rules: &Rules<'_>, table: &mut [u64], uses: &mut [u64])
    requires clear { Clear table.old }
    requires wide { Wide rules.now table.old }
    requires blank { Blank 64 uses.old }
    ensures mentions_of { MentionsOf rules.now table.new }
    ensures uses_of { UsesOf rules.now uses.new }
    ensures fits { (k : ℕ) → get_or uses.new k 0 < 2 ^ 64 }
{
    for p in 0..rules.rule_count() {
        let named = mention(rules, p, table);
        put_plain(table, p, named);
        growth::add_to(uses, usize::from(rules.left_of(p)), named);
    }
}

// Puts rule p into the row of each nonterminal that it mentions, and gives those. One that it mentions twice is put there twice, which
// changes nothing.
fn mention(rules: &Rules<'_>, p: usize, table: &mut [u64]) -> u64
    requires p_bound { p < rule_count rules.now }
    requires wide { Wide rules.now table.old }
    ensures { Mentioned (right_side rules.now p) p table.old table.new result }
{
    let mut named = 0;
    let symbols = rules.right_side(p);
    for &x in symbols {
        named = name(table, x, p, named);
    }
    named
}

// Puts rule p into the row of symbol x, and x to those that it mentions, where x is a nonterminal.
fn name(table: &mut [u64], x: u16, p: usize, named: u64) -> u64
    requires has_word { HasWord p table.old }
    requires x_bound { x < 128 }
    ensures { Named x p named table.old table.new result }
{
    if x < 64 {
        return named;
    }
    put(table, usize::from(x - 64), p);
    sets::with(named, x - 64)
}

// Puts rule p into the last row where it mentions no nonterminal.
fn put_plain(table: &mut [u64], p: usize, named: u64)
    requires { HasWord p table.old }
    ensures { Plain p named table.old table.new }
{
    if named == 0 {
        put(table, NOTHING, p);
    }
}

// Puts rule p into row r.
fn put(table: &mut [u64], r: usize, p: usize)
    requires has_word { HasWord p table.old }
    requires r_bound { r < 65 }
    ensures { Put r p table.old table.new }
{
    growth::add_to(table, ROWS * (p / 64) + r, sets::with(0, (p % 64) as u16));
}
