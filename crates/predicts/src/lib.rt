// The predict test, refusal 9: no two rules of one nonterminal share a predict token.
#![tactic(auto)]

ghost use Rattle.std.specs.Prelude.{◌≡◌, ◌<◌, length};
ghost use Rattle.grammar.specs.Words.{rule_count};
ghost use Rattle.grammar.specs.Derivation.{NoneShared};
ghost use Rattle.grammar.specs.Grammar.{RuleOf, start_over_end};
ghost use Rattle.base.specs.Telling.{Tells};
ghost use Rattle.base.specs.Blank.{Blank};
ghost use Rattle.follows.specs.Follows.{FollowsOf};
ghost use Rattle.predicts.specs.Predicts.{PredictMask};

use firsts::Masks;

// No two rules of one nonterminal share a predict token. `seen` has the union of each nonterminal's rules so far,
// and nothing at first.
pub fn none_shared(masks: &Masks<'_>, follows: &[u64], seen: &mut [u64]) -> bool
    requires follows_of { FollowsOf masks.now.ws follows.now }
    requires follows_len { length follows.now ≡ 64 }
    requires blank { Blank 64 seen.old }
    ensures { Tells (NoneShared (RuleOf masks.now.ws) start_over_end) result }
{
    let rules = masks.rules();
    let count = rules.rule_count();
    for p in 0..count {
        let mask = predict(masks, follows, p);
        let k = usize::from(rules.left_of(p));
        if sets::shared(seen[k], mask) {
            return false;
        }
        growth::add_to(seen, k, mask);
    }
    true
}

// The predict set of rule p: FIRST of its right side, with FOLLOW of its left side where the right side can be empty.
fn predict(masks: &Masks<'_>, follows: &[u64], p: usize) -> u64
    requires follows_of { FollowsOf masks.now.ws follows.now }
    requires follows_len { length follows.now ≡ 64 }
    requires p_bound { p < rule_count masks.now.ws }
    ensures { PredictMask masks.now.ws p result }
{
    let k = masks.rules().left_of(p);
    let behind = follows[usize::from(k)];
    masks.first_with(p, behind)
}
