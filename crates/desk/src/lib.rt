// The setup desk: document 02, request (iii), and refusal 23.
#![tactic(auto)]

ghost use Rattle.std.specs.Prelude.{◌≡◌, ℕ, ◌≤◌, ◌<◌, get_or, length};
ghost use Rattle.base.specs.Written.{written};
ghost use Rattle.grammar.specs.Desk.{DeskAnswer};
ghost use Rattle.grammar.specs.Refusals.{outcome_of};
ghost use Rattle.desk.specs.Answer.{CanList};

use grammar::Refusal;

// Where the table has the costs of the nonterminals, and where their cheapest rules.
const COSTS: usize = 64;

const RULES: usize = 128;

// Lists the cost and the cheapest rule of each nonterminal, in order, behind which both buffers are zero, and gives how many there are; or
// gives the lowest refusal of 5 to 9 and 23 that applies, and both are zero. The words are checked here. Both buffers are cleared first, so that no refusal can leave
// an old word in them.
pub fn costs(words: &[u16], costs: &mut [u16], rules: &mut [u16]) -> Result<usize, Refusal>
    ensures { DeskAnswer words.now (length costs.old) (length rules.old) (outcome_of result)
        costs.new rules.new }
{
    costs.fill(0);
    rules.fill(0);
    let mut table = [0u32; 192];
    verdict::priced(words, &mut table)?;
    list(words, &table, costs, rules)
}

// Lists them from the table of accepted words, or gives refusal 23: either buffer may be the short one.
fn list(
    words: &[u16],
    table: &[u32],
    costs: &mut [u16],
    rules: &mut [u16],
) -> Result<usize, Refusal>
    requires { CanList words.now table.now costs.old rules.old }
    ensures { DeskAnswer words.now (length costs.old) (length rules.old) (outcome_of result)
        costs.new rules.new }
{
    let count = shape::nonterminal_count(words);
    if costs.len() < count || rules.len() < count {
        return Err(Refusal::ShortDesk);
    }
    copy(&table[COSTS..COSTS + count], costs);
    copy(&table[RULES..RULES + count], rules);
    Ok(count)
}

// Copies entries of the table to the front of a buffer.
fn copy(entries: &[u32], words: &mut [u16])
    requires fit { length entries.now ≤ length words.old }
    requires by_index { (i : ℕ) → i < length entries.now → get_or entries.now i 0 ≤ 65535 }
    ensures { words.new ≡ written words.old 0 entries.now }
{
    for (i, &entry) in entries.iter().enumerate() {
        words[i] = entry as u16;
    }
}
