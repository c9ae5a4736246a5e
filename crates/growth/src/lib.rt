// Sets that only grow: one to which members are added (specs/Added.antt), and all along a list until nothing changes
// (specs/Closing.antt, specs/Along.antt).
#![tactic(auto)]

ghost use Rattle.std.specs.Prelude.{◌≡◌, ◌<◌, length};
ghost use Rattle.growth.specs.Added.{Added};
ghost use Rattle.growth.specs.Along.{Reached, Spent};
ghost use Rattle.growth.specs.Closing.{Closing, Fed, Listed, Noted, TakesOne};

// Adds the members of the mask to set k, and answers whether one of them was not there. The set is written in any case: most callers do
// not ask, and then nothing is compared.
pub fn add_to(all: &mut [u64], k: usize, mask: u64) -> bool
    requires { k < length all.old }
    ensures { Added all.old k mask all.new result }
{
    let old = all[k];
    let new = sets::union(old, mask);
    all[k] = new;
    new != old
}

// Passes each set on to the sets that it feeds, until nothing changes. The list has the sets that may have to be passed on: at first all
// that feed one, then those that have grown. It is a word of bits, so that none stands there twice. `high` says that its greatest number is
// taken first, else its least: that changes how often a set is passed on, and not what comes of it.
pub fn close(feeds: &[u64], list: u64, high: bool, sets: &mut [u64])
    requires feeds_len { length feeds.now ≡ 64 }
    requires sets_len { length sets.old ≡ 64 }
    requires listed { Listed feeds.now list }
    ensures { Closing feeds.now sets.old sets.new }
{
    if high {
        close_taking(feeds, list, sets::greatest, sets);
    } else {
        close_taking(feeds, list, sets::least, sets);
    }
}

// The same, where `take` says which number of the list is next.
pub fn close_taking<F: Fn(u64) -> u16>(feeds: &[u64], list: u64, take: F, sets: &mut [u64])
    requires feeds_len { length feeds.now ≡ 64 }
    requires sets_len { length sets.old ≡ 64 }
    requires listed { Listed feeds.now list }
    requires takes { TakesOne (F.pre take) (F.post take) }
    ensures { Closing feeds.now sets.old sets.new }
{
    let mut waiting = list;
    // Kept as a loop: the list changes on the way.
    while 0 < waiting {
        let k = take(waiting);
        let at = usize::from(k);
        let grown = feed(feeds[at], sets[at], sets);
        waiting = sets::union(sets::without(waiting, k), grown);
    }
}

// Adds the members of the mask to each of the sets in `fed`, and gives those that have grown. Where it has none there is nothing to do.
fn feed(fed: u64, mask: u64, sets: &mut [u64]) -> u64
    requires { length sets.old ≡ 64 }
    ensures { Fed fed mask sets.old sets.new result }
{
    if mask == 0 {
        return 0;
    }
    let mut rest = fed;
    let mut grown = 0;
    // Kept as a loop: the bits of a word are taken off one by one, for which the library has no iterator.
    while 0 < rest {
        let j = sets::least(rest);
        let more = add_to(sets, usize::from(j), mask);
        grown = note(grown, j, more);
        rest = sets::without(rest, j);
    }
    grown
}

// The set, and i where the answer is yes.
pub fn note(s: u64, i: u16, yes: bool) -> u64
    requires { i < 64 }
    ensures { Noted s i yes result }
{
    if yes { sets::with(s, i) } else { s }
}

// The numbers that 0 comes to, where from k there is a step to each of `feeds[k]`. Those that are reached and not done are the list. What was
// stepped on from is emptied: where all are reached, the table holds nothing then and serves the next.
pub fn reach(feeds: &mut [u64]) -> u64
    requires { length feeds.old ≡ 64 }
    ensures reached { Reached feeds.old result }
    ensures spent { Spent feeds.old result feeds.new }
{
    let mut reached = sets::with(0, 0);
    let mut done: u64 = 0;
    // Kept as a loop: what is reached grows on the way.
    loop {
        let rest = sets::beyond(reached, done);
        if rest == 0 {
            return reached;
        }
        let k = sets::least(rest);
        let at = usize::from(k);
        reached = sets::union(reached, feeds[at]);
        feeds[at] = 0;
        done = sets::with(done, k);
    }
}
