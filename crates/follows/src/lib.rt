// FOLLOW of each nonterminal over START END, as masks of tokens: exactly the sets by derivations, where every nonterminal
// is reachable. END is in FOLLOW(START). Each rule is visited once, and then a list has the nonterminals whose set must be passed on
// (request (v)).
#![tactic(auto)]

ghost use Rattle.std.specs.Prelude.{◌≡◌, true, ◌<◌, length};
ghost use Rattle.grammar.specs.Words.{rule_count};
ghost use Rattle.base.specs.Telling.{Tells};
ghost use Rattle.base.specs.Blank.{Blank};
ghost use Rattle.firsts.specs.Exact.{Exact};
ghost use Rattle.follows.specs.Follows.{FollowsOf, Reached, SoundFollows};
ghost use Rattle.follows.specs.Feeding.{AddedBehind};
ghost use Rattle.follows.specs.Lasts.{NotedLast, NullBy};
ghost use Rattle.follows.specs.Begun.{AllFed, Begun, RuleFed};

use firsts::Masks;

// FOLLOW of each nonterminal: what begins the rest behind it in a right side, and FOLLOW of the left side where it can stand last there.
// Left sides mostly have lower numbers than what they are made of, so sets are passed on from the lowest up.
pub fn follows(masks: &Masks<'_>, out: &mut [u64])
    requires reached { Reached masks.now.ws }
    requires blank { Blank 64 out.old }
    ensures { FollowsOf masks.now.ws out.new }
{
    let mut feeds = [0u64; 64];
    growth::add_to(out, 0, sets::with(0, 0));
    let list = begin(masks, &mut feeds, out);
    growth::close(&feeds, list, false, out);
}

// Every rule once: its nonterminals get what begins the rest behind them, and its left side feeds those that can stand last. Gives the
// list of the left sides that feed one.
fn begin(masks: &Masks<'_>, feeds: &mut [u64], out: &mut [u64]) -> u64
    requires reached { Reached masks.now.ws }
    requires begun { Begun masks.now.ws feeds.old out.old 0 }
    ensures fed { AllFed masks.now.ws masks.now.null masks.now.firsts feeds.new out.new result }
    ensures exact { Exact masks.now }
{
    let rules = masks.rules();
    let count = rules.rule_count();
    let mut list = 0;
    for p in 0..count {
        let last = feed_rule(masks, p, out);
        let k = rules.left_of(p);
        let more = growth::add_to(feeds, usize::from(k), last);
        list = growth::note(list, k, more);
    }
    list
}

// Adds to each nonterminal of rule p's right side what begins the rest behind it there, and gives those that can stand last. The right
// side is walked from its end, with what begins the rest so far, and whether all of the rest can be empty.
fn feed_rule(masks: &Masks<'_>, p: usize, out: &mut [u64]) -> u64
    requires reached { Reached masks.now.ws }
    requires p_bound { p < rule_count masks.now.ws }
    requires sound_follows { SoundFollows masks.now.ws out.old }
    ensures { RuleFed masks.now.ws masks.now.null masks.now.firsts p out.old out.new result }
{
    let right = masks.rules().right_side(p);
    let mut behind = 0;
    let mut last = 0;
    let mut ends = true;
    for &x in right.iter().rev() {
        add_behind(out, x, behind);
        last = last_with(last, x, ends);
        ends = empty_from(masks, x, ends);
        behind = masks.pass(x, behind);
    }
    last
}

// Adds the mask to the set of symbol x; a terminal has none.
fn add_behind(out: &mut [u64], x: u16, mask: u64)
    requires x_bound { x < 128 }
    requires out_len { length out.old ≡ 64 }
    ensures { AddedBehind out.old x mask out.new }
{
    if x < 64 {
        return;
    }
    growth::add_to(out, usize::from(x - 64), mask);
}

// The set, and x where it is a nonterminal that can stand last: what is behind it can be empty.
fn last_with(last: u64, x: u16, ends: bool) -> u64
    requires { x < 128 }
    ensures { NotedLast last x ends result }
{
    if x < 64 {
        return last;
    }
    growth::note(last, x - 64, ends)
}

// Whether all can be empty from x on, by whether all behind it can.
fn empty_from(masks: &Masks<'_>, x: u16, behind: bool) -> bool
    requires { x < 128 }
    ensures { Tells (NullBy masks.now.null x × (behind ≡ true)) result }
{
    x >= 64 && masks.empty(x - 64) && behind
}
