// FIRST of each nonterminal and of each right side, as masks of tokens: exactly the sets by derivations.
// For the nonterminals each rule is visited once, and then a list has those whose set must be passed on (request (v)). For both a
// right side is walked from its front, and no further than to its first symbol that cannot be empty.
#![tactic(auto)]

ghost use Rattle.std.specs.Prelude.{◌≡◌, [], ◌∷◌, ◌<◌, length};
ghost use Rattle.grammar.specs.Words.{right_side, rule_count};
ghost use Rattle.base.specs.Blank.{Blank};
ghost use Rattle.firsts.specs.Opens.{FirstWith};
ghost use Rattle.firsts.specs.Masks.{FirstsOf};
ghost use Rattle.sets.specs.Bits.{member};
ghost use Rattle.firsts.specs.Asked.{Asked, RuleFirstsOf};
ghost use Rattle.firsts.specs.Exact.{Exact};
ghost use Rattle.firsts.specs.Begun.{AllLed, Begun, Led};

use shape::rules::Rules;
use std::marker::Model;

// FIRST of each nonterminal: the tokens that stand first in its right sides, and FIRST of each nonterminal that can stand first there. START
// has the lowest number and what it is made of mostly higher ones, so sets are passed on from the highest down. Which set feeds which is noted
// in a table that is lent: in it, and in the other, nothing stands yet.
pub fn firsts(rules: &Rules<'_>, null: u64, feeds: &mut [u64], out: &mut [u64])
    requires asked { Asked rules.now null out.old }
    requires blank { Blank 64 feeds.old }
    requires blank_2 { Blank 64 out.old }
    ensures { FirstsOf rules.now out.new }
{
    let list = begin(rules, null, feeds, out);
    growth::close(feeds, list, true, out);
}

// FIRST of each right side, from FIRST of each nonterminal.
pub fn rule_firsts(masks: &Masks<'_>, out: &mut [u64])
    requires { length out.old ≡ 256 }
    ensures { RuleFirstsOf masks.now.ws out.new }
{
    let count = masks.rules().rule_count();
    for p in 0..count {
        out[p] = masks.first_with(p, 0);
    }
}

// What walks over right sides go by: the rules, which nonterminals can be empty, and FIRST of each nonterminal. Both masks are exact.
#[derive(Drop)]
pub struct Masks<'a> {
    rules: &'a Rules<'a>,
    null: u64,
    firsts: &'a [u64],
}

impl<'a> Model for Masks<'a> {
    ghost use Rattle.firsts.specs.Exact.{Exact, Masked};

    ghost Value = { Masked };

    ghost view = { λ m. record { ws = m.rules.now; null = m.null; firsts = m.firsts.now } };

    ghost invariant = { λ m. Exact (record { ws = m.rules.now; null = m.null; firsts = m.firsts.now }) };
}

impl<'a> Masks<'a> {
    // The masks of nonterminals that can be empty and of FIRST, where they are exact.
    pub fn new(rules: &'a Rules<'a>, null: u64, firsts: &'a [u64]) -> Self
        requires asked { Asked rules.now null firsts.now }
        requires firsts_of { FirstsOf rules.now firsts.now }
        ensures { result ≡ record { ws = rules.now; null = null; firsts = firsts.now } }
    {
        Masks {
            rules,
            null,
            firsts,
        }
    }

    // The rules that the masks are of.
    pub fn rules(&self) -> &'a Rules<'a>
        ensures rules { result.now ≡ self.now.ws }
        ensures exact { Exact self.now }
    {
        self.rules
    }

    // Nonterminal k can be empty.
    pub fn empty(&self, k: u16) -> bool
        requires { k < 64 }
        ensures { result ≡ member self.now.null k }
    {
        sets::has(self.null, k)
    }

    // The tokens that begin the right side of rule p, with those of `base` where the right side can be empty.
    pub fn first_with(&self, p: usize, base: u64) -> u64
        requires { p < rule_count self.now.ws }
        ensures { FirstWith self.now.null self.now.firsts base (right_side self.now.ws p) result }
    {
        first_with(self.rules, self.null, self.firsts, p, base)
    }

    // The tokens that begin symbol x, with those of `behind` where x can be empty.
    pub fn pass(&self, x: u16, behind: u64) -> u64
        requires { x < 128 }
        ensures { FirstWith self.now.null self.now.firsts behind (x ∷ []) result }
    {
        pass(x, self.null, self.firsts, behind)
    }
}

// The tokens that begin the right side of rule p by the table, with those of `base` where the right side can be empty. It is walked from
// its front to the first symbol that cannot be empty.
// Kept beside the method: it asks of the table no more than its length.
pub fn first_with(rules: &Rules<'_>, null: u64, firsts: &[u64], p: usize, base: u64) -> u64
    requires asked { Asked rules.now null firsts.now }
    requires p_bound { p < rule_count rules.now }
    ensures { FirstWith null firsts.now base (right_side rules.now p) result }
{
    let right = rules.right_side(p);
    let mut set = 0;
    for &x in right {
        if x < 64 {
            return sets::with(set, x);
        }
        let k = x - 64;
        set = sets::union(set, firsts[usize::from(k)]);
        if !sets::has(null, k) {
            return set;
        }
    }
    sets::union(set, base)
}

// The tokens that begin symbol x by the table, with those of `behind` where x can be empty.
// Kept beside `first_with`: a walk from the end asks after each symbol, and one from the front stops early.
pub fn pass(x: u16, null: u64, firsts: &[u64], behind: u64) -> u64
    requires x_bound { x < 128 }
    requires firsts_len { length firsts.now ≡ 64 }
    ensures { FirstWith null firsts.now behind (x ∷ []) result }
{
    if x < 64 {
        return sets::with(0, x);
    }
    let k = x - 64;
    let own = firsts[usize::from(k)];
    if sets::has(null, k) {
        return sets::union(own, behind);
    }
    own
}

// Every rule once: what can stand first in its right side is given to its left side. Gives the list of the nonterminals that feed one.
fn begin(rules: &Rules<'_>, null: u64, feeds: &mut [u64], out: &mut [u64]) -> u64
    requires asked { Asked rules.now null out.old }
    requires begun { Begun rules.now feeds.old out.old 0 }
    ensures { AllLed rules.now null feeds.new out.new result }
{
    let count = rules.rule_count();
    let mut list = 0;
    for p in 0..count {
        list = lead(rules, null, p, list, feeds, out);
    }
    list
}

// Rule p, from its front to the first symbol that cannot be empty: a token goes to the left side's set, a nonterminal feeds the left side
// and goes on the list.
fn lead(
    rules: &Rules<'_>,
    null: u64,
    p: usize,
    mut list: u64,
    feeds: &mut [u64],
    out: &mut [u64],
) -> u64
    requires asked { Asked rules.now null out.old }
    requires p_bound { p < rule_count rules.now }
    requires begun { Begun rules.now feeds.old out.old list }
    ensures { Led rules.now null p feeds.old out.old feeds.new out.new result }
{
    let k = rules.left_of(p);
    let right = rules.right_side(p);
    for &x in right {
        if x < 64 {
            growth::add_to(out, usize::from(k), sets::with(0, x));
            return list;
        }
        growth::add_to(feeds, usize::from(x - 64), sets::with(0, k));
        list = sets::with(list, x - 64);
        if !sets::has(null, x - 64) {
            return list;
        }
    }
    list
}
