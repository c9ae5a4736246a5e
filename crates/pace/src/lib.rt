// The pace report: document 01, "Pace", and refusal 16 of 02. The cycles are found in one pass over the log's places, with a cursor in the
// edit records, whose places never fall.
#![tactic(auto)]

ghost use Rattle.std.specs.Prelude.{◌≡◌, ◌+◌, ◌*◌, ◌<◌, ◌≤◌, not, ◌&&◌, ◌||◌, length, ◌==◌, cond};
ghost use Rattle.grammar.specs.Words.{Shaped};
ghost use Rattle.grammar.specs.Pace.{Reported, pace_of, wrapped};
ghost use Rattle.grammar.specs.Refusals.{outcome_of};
ghost use Rattle.base.specs.Telling.{Tells};
ghost use Rattle.pace.specs.Watch.{
  Cursor,
  Finds,
  Lent,
  Small,
  Stands,
  closed_by,
  kind_at,
  marks_of,
  opened_by,
  passed_by,
  place_at,
  spoiled_by,
};

use grammar::{Counts, Refusal, Report};
use parser::Asking;

// "Kind (1 delete, 2 insert)." Kept: kinds stand in lent buffers as numbers (C interface).
const DELETE: u16 = 1;

// The marks of a cycle, and the restart mark, 0 where there is none.
#[derive(Clone, Copy)]
struct Marks {
    opening: u16,
    closing: u16,
    restart: u16,
}

// What the edit records say of one place: whether one has it, whether its token is deleted, and the first record behind
// them.
#[derive(Clone, Copy)]
struct Here {
    edited: bool,
    deleted: bool,
    behind: usize,
}

// The cycles so far, with the sum of their times in ms. `since` has the tick of an opening mark that was kept, where behind it
// no mark and no restart mark was kept and no edit stands: the next closing mark makes a clean cycle.
#[derive(Clone, Copy)]
struct Watch {
    since: Option<u32>,
    count: u32,
    sum: u64,
}

// The report of a log with the counts of its parse, from unchecked grammar words: it runs the parse, asking for as many ticks as tokens and that the unit is not 1, and
// leaves in the buffers what the parse leaves.
pub fn report(
    words: &[u16],
    log: &[u16],
    ticks: &[u32],
    edits: &mut [u16],
    rules: &mut [u16],
) -> Result<(Report, Counts), Refusal>
    ensures { Reported words.now log.now ticks.now (length edits.old)
        (length rules.old) (outcome_of result) edits.new rules.new }
{
    let asking = Asking {
        timed: ticks.len() == log.len(),
        paced: !shape::unit_one(words),
    };
    let counts = parser::parse_asking(words, log, asking, edits, rules)?;
    let told = cycles(words, log, ticks, edits, counts.records);
    Ok((told, counts))
}

// ---- The report of a run that ended

// The report of the run that left these edit records.
fn cycles(words: &[u16], log: &[u16], ticks: &[u32], edits: &[u16], records: usize) -> Report
    requires { Lent words.now log.now ticks.now edits.now records }
    ensures { Finds words.now log.now ticks.now edits.now records result }
{
    let marks = marks_of(words);
    let mut watch = Watch {
        since: None,
        count: 0,
        sum: 0,
    };
    let mut at = 0;
    for (place, &token) in log.iter().enumerate() {
        let here = here_at(edits, records, at, place);
        at = here.behind;
        watch = watch.passed(marks, here, token, ticks[place]);
    }
    let Watch { count, sum, .. } = watch;
    Report {
        count,
        sum,
        pace: pace_of(count, sum),
    }
}

// The marks of the words.
fn marks_of(words: &[u16]) -> Marks
    requires { Shaped words.now }
    ensures { result ≡ marks_of words.now }
{
    Marks {
        opening: shape::opening(words),
        closing: shape::closing(words),
        restart: shape::restart(words),
    }
}

// "Idle when the count is 0, else the mean in ms as an f64, sum and count each converted without loss and divided once."
fn pace_of(count: u32, sum: u64) -> grammar::Pace
    requires { sum ≤ 9007199254740992 }
    ensures { result ≡ pace_of count sum }
{
    if count == 0 {
        grammar::Pace::Idle
    } else {
        grammar::Pace::Mean(sum as f64 / count as f64)
    }
}

// ---- The edit records

// What the records say of a place, from the cursor on.
// Kept: a while, as the cursor goes on from place to place; and its contract speaks of a record by its number.
fn here_at(edits: &[u16], records: usize, at: usize, place: usize) -> Here
    requires { Cursor edits.now records at place }
    ensures { Stands edits.now records place result }
{
    let mut behind = at;
    let mut deleted = false;
    while stands(edits, records, behind, place) {
        if kind_of(edits, behind) == DELETE {
            deleted = true;
        }
        behind += 1;
    }
    Here {
        edited: at < behind,
        deleted,
        behind,
    }
}

// Whether there is a record i, and it has the place.
fn stands(edits: &[u16], records: usize, i: usize, place: usize) -> bool
    requires { 3 * records ≤ length edits.now }
    ensures { Tells ((i < records) × (place_at edits.now i ≡ place)) result }
{
    i < records && place_of(edits, i) == place
}

// The place of record i.
fn place_of(edits: &[u16], i: usize) -> usize
    requires { 3 * i + 3 ≤ length edits.now }
    ensures { result ≡ place_at edits.now i }
{
    usize::from(edits[3 * i + 1])
}

// The kind of record i.
fn kind_of(edits: &[u16], i: usize) -> u16
    requires { 3 * i + 3 ≤ length edits.now }
    ensures { result ≡ kind_at edits.now i }
{
    edits[3 * i]
}

// ---- The cycles

impl Here {
    // Whether the place spoils the cycle that is open there: an edit has it, or its token is the restart mark, which is then kept or the
    // place edited. No token is 0, so that a restart mark of 0 is none.
    fn spoils(self, token: u16, restart: u16) -> bool
        ensures { result ≡ (self.edited || token == restart) }
    {
        self.edited || token == restart
    }

    // Whether the place's token is this mark, and kept.
    fn keeps(self, token: u16, mark: u16) -> bool
        ensures { result ≡ (not self.deleted && token == mark) }
    {
        !self.deleted && token == mark
    }
}

impl Watch {
    // Passes a place: first what spoils a cycle there, then its token where that is kept.
    fn passed(self, marks: Marks, here: Here, token: u16, tick: u32) -> Watch
        requires { Small self }
        ensures { result ≡ passed_by marks here token tick self }
    {
        self.spoiled(here.spoils(token, marks.restart))
            .closed(here.keeps(token, marks.closing), tick)
            .opened(here.keeps(token, marks.opening), tick)
    }

    // An edit or a restart: the open cycle is clean no more.
    fn spoiled(mut self, spoils: bool) -> Watch
        ensures { result ≡ cond spoils (spoiled_by self) self }
    {
        if spoils {
            self.since = None;
        }
        self
    }

    // A closing mark: where a cycle is open, which is then clean, it counts.
    fn closed(mut self, closes: bool, tick: u32) -> Watch
        requires { Small self }
        ensures { result ≡ cond closes (closed_by tick self) self }
    {
        // One test, so that the compiler makes no branch of it: where a log closes its cycles cannot be foreseen.
        if self.since.is_some() && closes {
            self.count += 1;
            self.sum += u64::from(time(self.since.unwrap(), tick));
            self.since = None; // A second closing mark closes nothing.
        }
        self
    }

    // An opening mark: a cycle is open from its tick on.
    fn opened(mut self, opens: bool, tick: u32) -> Watch
        ensures { result ≡ cond opens (opened_by tick self) self }
    {
        if opens {
            self.since = Some(tick);
        }
        self
    }
}

// The time of a cycle in ms: "tick b minus tick a modulo 2^32".
fn time(opened: u32, closed: u32) -> u32
    ensures { result ≡ wrapped opened closed }
{
    closed.wrapping_sub(opened)
}
