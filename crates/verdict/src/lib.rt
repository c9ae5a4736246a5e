// The grammar check: the verdict 5 to 9, and the tables that a parser needs.
#![tactic(auto)]

ghost use Rattle.std.specs.Prelude.{◌≡◌, true, ℕ, ◌<◌, ◌≤◌, ◌+◌, ◌*◌, ◌/◌, length};
ghost use Rattle.grammar.specs.Words.{Shaped, nonterminal_count, rule_count, terminal_count};
ghost use Rattle.grammar.specs.Derivation.{NoneShared};
ghost use Rattle.grammar.specs.Grammar.{RuleOf, Verdict, start_over_end};
ghost use Rattle.grammar.specs.Refusals.{refusal_of};
ghost use Rattle.sets.specs.Bits.{member};
ghost use Rattle.base.specs.Telling.{Tells};
ghost use Rattle.base.specs.Blank.{Blank};
ghost use Rattle.mentions.specs.Mentions.{Clear, Wide};
ghost use Rattle.costs.specs.Costed.{Costed};
ghost use Rattle.firsts.specs.Asked.{Asked};
ghost use Rattle.follows.specs.Follows.{Reached};
ghost use Rattle.verdict.specs.Answer.{
  Judged,
  Predicted,
  PricedAs,
  Reaching,
  Sizes,
  Tabled,
};
ghost use Rattle.verdict.specs.Prices.{Dear, Limits, Within};

use firsts::Masks;
use grammar::Refusal;
use shape::rules::Rules;

mod rows;

// The grammar check: the words are accepted, or the lowest refusal of 5 to 9 that applies is given.
pub fn check(words: &[u16]) -> Result<(), Refusal>
    ensures { Verdict words.now (refusal_of result) }
{
    let mut prices = [0u32; 192];
    priced(words, &mut prices)
}

// The grammar check, and for accepted words the cost of each symbol and the cheapest rule of each nonterminal. On a refusal what stands in
// the table means nothing.
pub fn priced(words: &[u16], prices: &mut [u32]) -> Result<(), Refusal>
    requires { Blank 192 prices.old }
    ensures { PricedAs words.now prices.new result }
{
    let mut places = [0u16; 256];
    let rules = Rules::new(words, &mut places).ok_or(Refusal::BadShape)?;
    let mut sets = [0u64; 65];
    judge(&rules, prices, &mut sets)
}

// The grammar check, and for accepted words all tables that a parser needs. On a refusal what stands in the tables means
// nothing.
pub fn tables(
    words: &[u16],
    sets: &mut [u64],
    prices: &mut [u32],
    sides: &mut [u64],
    rows: &mut [u16],
) -> Result<(), Refusal>
    requires { Sizes sets.old prices.old sides.old rows.old }
    ensures { Tabled words.now sets.new prices.new sides.new rows.new result }
{
    let mut places = [0u16; 256];
    let rules = Rules::new(words, &mut places).ok_or(Refusal::BadShape)?;
    judge(&rules, &mut prices[0..192], sets)?;
    limits(&rules, &mut prices[192..256]);
    rows::fill(&rules, sets, sides, rows);
    Ok(())
}

// The conditions behind the first, with room for as many rules as there are in the table of which rules mention a nonterminal.
fn judge(rules: &Rules<'_>, costs: &mut [u32], sets: &mut [u64]) -> Result<(), Refusal>
    requires blank { Blank 192 costs.old }
    requires blank_2 { Blank 65 sets.old }
    ensures { Judged rules.now costs.new sets.new result }
{
    if rules.rule_count() <= 64 {
        judge_in::<65>(rules, costs, sets)
    } else {
        judge_in::<260>(rules, costs, sets)
    }
}

// The conditions in their order, each over the whole grammar before the next. FOLLOW is exact only where every nonterminal
// is reachable, so that the last test rests on the second.
fn judge_in<const ROOM: usize>(
    rules: &Rules<'_>,
    costs: &mut [u32],
    sets: &mut [u64],
) -> Result<(), Refusal>
    requires shaped { Shaped rules.now }
    requires room { ROOM ≤ 260 }
    requires wide { 65 * ((rule_count rules.now + 63) / 64) ≤ ROOM }
    requires blank { Blank 192 costs.old }
    requires blank_2 { Blank 65 sets.old }
    ensures { Judged rules.now costs.new sets.new result }
{
    let mut mentions = [0u64; ROOM];
    let mut feeds = [0u64; 64];
    if !reachable(rules, &mut mentions, &mut feeds) {
        return Err(Refusal::Unreachable);
    }
    costs::costs(rules, &mentions, costs);
    if !within(rules, costs, 60000) {
        return Err(unaffordable(rules, costs));
    }
    let null = costs::empties(rules.words(), costs);
    if !predictable(rules, null, &mut feeds, &mut sets[0..64]) {
        return Err(Refusal::SharedPredict);
    }
    sets[64] = null;
    Ok(())
}

// ---- Refusals 6, 7 and 8

// Every nonterminal is reachable from START. Fills the table of which rules mention a nonterminal, which the costs go by too. `uses` holds
// nothing at first, and where all are reached nothing in the end.
fn reachable(rules: &Rules<'_>, mentions: &mut [u64], uses: &mut [u64; 64]) -> bool
    requires shaped { Shaped rules.now }
    requires clear { Clear mentions.old }
    requires wide { Wide rules.now mentions.old }
    requires blank { Blank 64 uses.old }
    ensures { Reaching rules.now mentions.new uses.new result }
{
    mentions::gather(rules, mentions, uses);
    covers(rules, growth::reach(uses))
}

// Every nonterminal is in the set.
fn covers(rules: &Rules<'_>, mask: u64) -> bool
    ensures { Tells ((k : ℕ) → k < nonterminal_count rules.now → member mask k ≡ true) result }
{
    sets::beyond(sets::below(rules.nonterminal_count()), mask) == 0
}

// Which refusal is due where a nonterminal costs more than 60,000: 7 where one derives no terminal string, else 8.
fn unaffordable(rules: &Rules<'_>, costs: &[u32]) -> Refusal
    requires { Costed rules.now costs.now }
    ensures { Dear rules.now costs.now result }
{
    if within(rules, costs, 60001) {
        Refusal::TooCostly
    } else {
        Refusal::NoString
    }
}

// No nonterminal's cost is over the limit.
fn within(rules: &Rules<'_>, costs: &[u32], limit: u32) -> bool
    requires { Costed rules.now costs.now }
    ensures { Tells (Within rules.now limit costs.now) result }
{
    let count = rules.nonterminal_count();
    costs[64..64 + count].iter().all(|&cost| cost <= limit)
}

// ---- Refusal 9

// No two rules of one nonterminal share a predict token. Fills the table of FIRST, and notes in the other what feeds what.
fn predictable(rules: &Rules<'_>, null: u64, feeds: &mut [u64; 64], firsts: &mut [u64]) -> bool
    requires asked { Asked rules.now null firsts.old }
    requires blank { Blank 64 feeds.old }
    requires blank_2 { Blank 64 firsts.old }
    requires reached { Reached rules.now }
    ensures { Predicted rules.now firsts.new result }
{
    firsts::firsts(rules, null, feeds, firsts);
    unshared(&Masks::new(rules, null, firsts))
}

// The predict test, with FOLLOW and the union of predict sets in tables of its own.
fn unshared(masks: &Masks<'_>) -> bool
    requires { Reached masks.now.ws }
    ensures { Tells (NoneShared (RuleOf masks.now.ws) start_over_end) result }
{
    let mut follows = [0u64; 64];
    follows::follows(masks, &mut follows);
    let mut seen = [0u64; 64];
    predicts::none_shared(masks, &follows, &mut seen)
}

// ---- The reliabilities

// What a cost must stay below for each terminal: its reliability, and for END, whose reliability counts as unlimited, a number
// above every cost of a stack.
fn limits(rules: &Rules<'_>, limits: &mut [u32])
    requires { length limits.old ≡ 64 }
    ensures { Limits rules.now (terminal_count rules.now) limits.new }
{
    limits[0] = u32::MAX;
    let terminals = rules.terminals();
    for t in 1..rules.terminal_count() {
        limits[t] = u32::from(shape::reliability_of(terminals, t));
    }
}
