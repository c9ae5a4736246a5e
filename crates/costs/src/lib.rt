// The cost of each symbol and the cheapest rule of each nonterminal, in one table: entry t is the insert cost of terminal t, entry 64 + k
// the cost of nonterminal k, entry 128 + k the number of its cheapest rule. Costs begin above every sum and fall: a list has the
// nonterminals whose cost fell, and only the rules that mention one of them are visited again. What a nonterminal is made of mostly has
// higher numbers, so the greatest is taken first. The sum of the costs falls with each that goes on the list, and is the measure. The lowest
// of the rules that reach a cost is noted along with it.
// Kept: the table is one list, since a cost is looked up by the symbol's number, terminal or not, in one step, and the parser reads it so.
#![tactic(auto)]

ghost use Rattle.std.specs.Prelude.{◌≡◌, ◌<◌};
ghost use Rattle.grammar.specs.Grammar.{RuleOf};
ghost use Rattle.grammar.specs.Words.{Shaped, nonterminal_count, right_side, rule_count};
ghost use Rattle.grammar.specs.Theory.Masks.{NullMask};
ghost use Rattle.grammar.specs.Theory.Closed.{total};
ghost use Rattle.base.specs.Blank.{Blank};
ghost use Rattle.mentions.specs.Mentions.{InRow, MentionsOf};
ghost use Rattle.costs.specs.Costed.{Costed};
ghost use Rattle.costs.specs.Held.{Begun, Fresh, Held, Limited, entry};
ghost use Rattle.costs.specs.Visiting.{Capped, Chosen, Fell, InWord, Known, Revised, RulesOf, Spans};

use shape::rules::Rules;

// What stands for a cost above 60,000.
const OVER: u32 = 60001;

// What stands for the cost of a nonterminal that derives no terminal string: more than eight costs together.
const NONE: u32 = 1000000;

// Fills the table, which holds nothing. A cost of at most 60,000 is exact, and so is its rule; one of 60,001 says that the nonterminal
// derives terminal strings, and none of cost 60,000 or less: refusal 8; one of 1,000,000 that it derives none: refusal 7.
pub fn costs(rules: &Rules<'_>, mentions: &[u64], table: &mut [u32])
    requires mentions_of { MentionsOf rules.now mentions.now }
    requires blank { Blank 192 table.old }
    ensures { Costed rules.now table.new }
{
    begin_terminals(rules, table);
    begin_nonterminals(rules, table);
    let size = (rules.rule_count() + 63) / 64;
    // Kept: a worklist and no count: a visit puts nonterminals back on it.
    let mut list = visit_row(rules, mentions, mentions::NOTHING, size, table);
    while 0 < list {
        let k = sets::greatest(list);
        let fallen = visit_row(rules, mentions, usize::from(k), size, table);
        list = sets::union(sets::without(list, k), fallen);
    }
}

// The nonterminals that can be empty: those that cost nothing, since every terminal of a right side costs at least 1.
pub fn empties(words: &[u16], table: &[u32]) -> u64
    requires shaped { Shaped words.now }
    requires costed { Costed words.now table.now }
    ensures { NullMask (RuleOf words.now) (nonterminal_count words.now) result }
{
    let mut mask = 0;
    for k in 0..shape::nonterminal_count(words) {
        let free = table[64 + k] == 0;
        if free {
            mask = sets::with(mask, k as u16);
        }
    }
    mask
}

// ---- The first costs, and no rule

// A terminal's insert cost.
fn begin_terminals(rules: &Rules<'_>, table: &mut [u32])
    requires { Blank 192 table.old }
    ensures { Begun rules.now table.new }
{
    let terminals = rules.terminals();
    for t in 0..rules.terminal_count() {
        table[t] = u32::from(shape::insert_cost(terminals, t));
    }
}

// None for a nonterminal.
fn begin_nonterminals(rules: &Rules<'_>, table: &mut [u32])
    requires { Begun rules.now table.old }
    ensures { Fresh rules.now table.new }
{
    let count = rules.nonterminal_count();
    table[64..64 + count].fill(NONE);
}

// ---- The visits

// Visits the rules of a row, in as many words as rules take, and gives the nonterminals whose cost fell.
fn visit_row(rules: &Rules<'_>, mentions: &[u64], row: usize, size: usize, table: &mut [u32]) -> u64
    requires shaped { Shaped rules.now }
    requires mentions_of { MentionsOf rules.now mentions.now }
    requires row_bound { row < 65 }
    requires spans { Spans rules.now mentions.now size }
    requires held { Held rules.now table.old }
    ensures { Revised rules.now (InRow mentions.now row) table.old table.new result }
{
    let mut fallen = 0;
    for w in 0..size {
        let more = visit_word(rules, mentions[mentions::ROWS * w + row], w, table);
        fallen = sets::union(fallen, more);
    }
    fallen
}

// Visits the rules of word w of a row.
fn visit_word(rules: &Rules<'_>, word: u64, w: usize, table: &mut [u32]) -> u64
    requires shaped { Shaped rules.now }
    requires rules_of { RulesOf rules.now word w }
    requires held { Held rules.now table.old }
    ensures { Revised rules.now (InWord word w) table.old table.new result }
{
    // Kept: an iterator over the members of a word would be no plainer, since its laws would stand beside this loop's.
    let mut rest = word;
    let mut fallen = 0;
    while 0 < rest {
        let i = sets::least(rest);
        let more = visit(rules, 64 * w + usize::from(i), table);
        fallen = sets::union(fallen, more);
        rest = sets::without(rest, i);
    }
    fallen
}

// The left side of rule p costs no more than its right side, and where it costs as much, its rule is no higher than p. Gives the left side
// where its cost falls.
fn visit(rules: &Rules<'_>, p: usize, table: &mut [u32]) -> u64
    requires p_bound { p < rule_count rules.now }
    requires held { Held rules.now table.old }
    ensures { Revised rules.now (λ q. q ≡ p) table.old table.new result }
{
    let sum = capped(rule_cost(rules, p, table));
    let k = rules.left_of(p);
    let at = 64 + usize::from(k);
    let cost = table[at];
    if stays(cost, table[64 + at], sum, p as u32) {
        return 0;
    }
    table[at] = sum;
    table[64 + at] = known(sum, p as u32);
    fell(cost, sum, k)
}

// The sum as the table holds it.
fn capped(sum: u32) -> u32
    ensures { Capped sum result }
{
    if sum < OVER {
        sum
    } else if sum < NONE {
        OVER
    } else {
        NONE
    }
}

// Rule p, whose right side costs the sum, changes neither the cost nor the rule of its left side.
fn stays(cost: u32, rule: u32, sum: u32, p: u32) -> bool
    ensures { Chosen cost rule sum p result }
{
    cost < sum || (cost == sum && (OVER <= sum || rule <= p))
}

// The rule of a known cost; one above has none.
fn known(sum: u32, p: u32) -> u32
    ensures { Known sum p result }
{
    if sum < OVER { p } else { 0 }
}

// Nonterminal k where its cost falls.
fn fell(cost: u32, sum: u32, k: u16) -> u64
    requires { k < 64 }
    ensures { Fell cost sum k result }
{
    if sum < cost { sets::with(0, k) } else { 0 }
}

// The sum over rule p's right side. Eight costs are far below 2 ^ 32.
fn rule_cost(rules: &Rules<'_>, p: usize, table: &[u32]) -> u32
    requires p_bound { p < rule_count rules.now }
    requires limited { Limited table.now }
    ensures { result ≡ total (entry table.now) (right_side rules.now p) }
{
    let mut sum = 0;
    for &x in rules.right_side(p) {
        sum += table[usize::from(x)];
    }
    sum
}
