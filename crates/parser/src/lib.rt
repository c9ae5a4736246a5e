// The repairing parser: document 01, "Moves", and refusals 11 and 12. The stack, the edits and the rules are slices beside a
// state of numbers; the tables are those of the grammar check.
#![tactic(auto)]

ghost use Rattle.std.specs.Prelude.{true, ◌≡◌, ◌+◌, ◌-◌, ◌*◌, ◌≤◌, ◌<◌, length};
ghost use Rattle.parser.specs.Lookup.{RuleFor};
ghost use Rattle.parser.specs.Expanding.{ExpandedOf};
ghost use Rattle.parser.specs.Turns.{TurnOf};
ghost use Rattle.parser.specs.Runs.{RanOf};
ghost use Rattle.parser.specs.Grounded.{LooksUp, Expands, Turns, Starts};
ghost use Rattle.parser.specs.Asking.{asks_by};
ghost use Rattle.parser.specs.Parses.{CheapWhere, Lent, SettledAs};
ghost use Rattle.base.specs.Telling.{Tells};
ghost use Rattle.grammar.specs.Run.{LogFits, Parsed, ParsedAsking};
ghost use Rattle.grammar.specs.Words.{Shaped};
ghost use Rattle.grammar.specs.Refusals.{Lowest, outcome_of, refusal_of};
ghost use Rattle.grammar.specs.Theory.Answered.{conditions_from10};
ghost use Rattle.grammar.specs.Theory.Tables.{sized_of};

use grammar::{Counts, Refusal};
use moves::{Parser, Way};

// What a caller asks before the run, besides what the parser does: each is true where it holds or is not asked. `asks_by` of
// specs/Asking.antt says what they stand for.
#[derive(Clone, Copy, Debug, PartialEq, Eq)]
pub struct Asking {
    // Under refusal 10: there are as many ticks as tokens.
    pub timed: bool,
    // Behind it, refusal 16: the tick unit is not 1.
    pub paced: bool,
}

// Runs the log by the grammar words, which are checked first, and leaves its edit records and rule numbers in the two lent
// buffers; or gives the lowest refusal of 5 to 10 that applies, or the one of 11 and 12 that the run meets.
pub fn parse(
    words: &[u16],
    log: &[u16],
    edits: &mut [u16],
    rules: &mut [u16],
) -> Result<Counts, Refusal>
    ensures { Parsed words.now log.now (length edits.old) (length rules.old)
        (outcome_of result) edits.new rules.new }
{
    let nothing = Asking {
        timed: true,
        paced: true,
    };
    parse_asking(words, log, nothing, edits, rules)
}

// The same for a caller that asks something more.
pub fn parse_asking(
    words: &[u16],
    log: &[u16],
    asking: Asking,
    edits: &mut [u16],
    rules: &mut [u16],
) -> Result<Counts, Refusal>
    ensures { ParsedAsking (asks_by asking) words.now log.now (length edits.old)
        (length rules.old) (outcome_of result) edits.new rules.new }
{
    let mut prices = [0u32; 256];
    let mut sides = [0u64; 512];
    parse_tabled(words, log, asking, &mut prices, &mut sides, edits, rules)
}

// The same for a caller that spells strings of cheapest rules behind it: the two tables that this takes are lent by it, the first of them of
// zeros, and filled where the log is not refused. On a refusal what stands in them means nothing.
pub fn parse_tabled(
    words: &[u16],
    log: &[u16],
    asking: Asking,
    prices: &mut [u32],
    sides: &mut [u64],
    edits: &mut [u16],
    rules: &mut [u16],
) -> Result<Counts, Refusal>
    requires { Lent prices.old sides.old }
    ensures parsed_asking { ParsedAsking (asks_by asking) words.now log.now (length edits.old)
        (length rules.old) (outcome_of result) edits.new rules.new }
    ensures cheap_where { CheapWhere words.now prices.new sides.new result }
{
    match settle(words, log, asking, prices, sides, edits, rules) {
        Ok(counts) => {
            base::fill_from(edits, 3 * counts.records, 0);
            base::fill_from(rules, counts.listed, 0);
            Ok(counts)
        }
        Err(refusal) => {
            edits.fill(0);
            rules.fill(0);
            Err(refusal)
        }
    }
}

// The conditions before the run, in their order, and the run. The buffers are not cleared yet.
fn settle(
    words: &[u16],
    log: &[u16],
    asking: Asking,
    prices: &mut [u32],
    sides: &mut [u64],
    edits: &mut [u16],
    rules: &mut [u16],
) -> Result<Counts, Refusal>
    requires { Lent prices.old sides.old }
    ensures settled_as { SettledAs (asks_by asking) words.now log.now (length edits.old)
        (length rules.old) edits.new rules.new result }
    ensures cheap_where { CheapWhere words.now prices.new sides.new result }
{
    let mut masks = [0u64; 65];
    let mut rows = [0u16; 4224];
    verdict::tables(words, &mut masks, prices, sides, &mut rows)?;
    admits(words, log, asking)?;
    let mut stack = [0u16; 264];
    let grounds = Grounds {
        words,
        log,
        masks: &masks,
        prices,
        sides,
        rows: &rows,
    };
    grounds.run(&mut stack, edits, rules)
}

// ---- The run

// What a run works from: the words, which the contracts alone read, the log, and the tables of the grammar check.
#[derive(Clone, Copy)]
struct Grounds<'a> {
    words: &'a [u16],
    log: &'a [u16],
    masks: &'a [u64],
    prices: &'a [u32],
    sides: &'a [u64],
    rows: &'a [u16],
}

// Where the table of sides has the right sides, each in one word, behind FIRST of each of 256.
const RIGHTS: usize = 256;

// Where the rules' rows begin, behind a link for each of 128 symbols; where a row has its rule's length, and where the link to the
// last rule of the same left side before it.
const ROWS: usize = 128;

const SIZE: usize = 8;

const LINK: usize = 9;

impl Grounds<'_> {
    // "Its one rule whose right side has t in FIRST": the rules of one left side are a list of links, each a rule's number plus 1.
    fn rule_for(&self, top: u16, t: u16) -> usize
        requires { LooksUp self.now top t }
        ensures { RuleFor (sized_of self.now.words.now) top t result }
    {
        let rows = self.rows;
        let sides = self.sides;
        let mut link = usize::from(rows[usize::from(top)]);
        while 0 < link {
            let p = link - 1;
            if sets::has(sides[p], t) {
                return p;
            }
            link = usize::from(rows[ROWS + 16 * p + LINK]);
        }
        0
    }

    // Expand: "one pop, the right side is pushed, the rule number is listed"; refusal 11 is tested first, then 12.
    fn expand(
        &self,
        stack: &mut [u16],
        rules: &mut [u16],
        d: Parser,
        top: u16,
        t: u16,
    ) -> Result<Parser, Refusal>
        requires { Expands self.now stack.old d top t }
        ensures { ExpandedOf (sized_of self.now.words.now) stack.old rules.old d t stack.new
            rules.new result }
    {
        let rows = self.rows;
        let sides = self.sides;
        let at = d.height - 1;
        let rule = self.rule_for(top, t);
        let row = ROWS + 16 * rule;
        let size = usize::from(rows[row + SIZE]);
        if 256 < at + size {
            return Err(Refusal::StackFull);
        }
        let listed = d.listed;
        if rules.len() <= listed {
            return Err(Refusal::NoRoom);
        }
        rules[listed] = rule as u16;
        moves::push(rows, row, stack, at);
        let right = sides[RIGHTS + rule];
        Ok(d.expanded(size, right))
    }

    // One turn: the drops for the current token and the match or the expand that they lead to, or a correction.
    fn turn(
        &self,
        stack: &mut [u16],
        edits: &mut [u16],
        rules: &mut [u16],
        p: Parser,
    ) -> Result<Parser, Refusal>
        requires { Turns self.now stack.old edits.old rules.old p }
        ensures { TurnOf (sized_of self.now.words.now) self.now.log.now (length edits.old)
            (length rules.old) p.moves stack.new edits.new rules.new result }
    {
        let t = correction::token_at(self.log, p.place);
        let way = moves::descend(self.masks, stack, p, t);
        match way {
            Way::Fits(d) => Ok(d.matched()),
            Way::Grows(d, top) => self.expand(stack, rules, d, top, t),
            Way::Stuck => {
                match correction::correct(
                    self.words,
                    self.log,
                    self.masks,
                    self.prices,
                    stack,
                    edits,
                    p,
                ) {
                    Some(q) => Ok(q.windowless()),
                    None => Err(Refusal::NoRoom),
                }
            }
        }
    }

    // The run of a log: "the run ends when END is matched". The stack begins as START over END.
    fn run(
        &self,
        stack: &mut [u16],
        edits: &mut [u16],
        rules: &mut [u16],
    ) -> Result<Counts, Refusal>
        requires { Starts self.now stack.old }
        ensures { RanOf (sized_of self.now.words.now) self.now.log.now (length edits.old)
            (length rules.old) edits.new rules.new result }
    {
        stack[0] = 0;
        stack[1] = 64;
        let mut p = Parser::new();
        while 0 < p.height {
            p = self.turn(stack, edits, rules, p)?;
        }
        Ok(Counts {
            moves: p.moves,
            records: p.records,
            listed: p.listed,
        })
    }
}

// ---- Before the run

// The conditions behind those of the check, in their order: 10 and 16.
fn admits(words: &[u16], log: &[u16], asking: Asking) -> Result<(), Refusal>
    requires { Shaped words.now }
    ensures { Lowest (conditions_from10 (asks_by asking) words.now log.now) (refusal_of result) }
{
    if !log_fits(words, log, asking.timed) {
        return Err(Refusal::BadLog);
    }
    if !asking.paced {
        return Err(Refusal::Hundredths);
    }
    Ok(())
}

// Refusal 10: "over 4,096 tokens, a token outside 1..T-1", and what else is asked. The least and the largest token are found without a
// branch for each.
fn log_fits(words: &[u16], log: &[u16], asked: bool) -> bool
    requires { Shaped words.now }
    ensures { Tells (LogFits words.now log.now × (asked ≡ true)) result }
{
    if !asked {
        return false;
    }
    if 4096 < log.len() {
        return false;
    }
    let mut low = u16::MAX;
    let mut high = 0;
    for &t in log {
        low = low.min(t);
        high = high.max(t);
    }
    0 < low && usize::from(high) < shape::terminal_count(words)
}
