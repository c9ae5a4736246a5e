// What pushing a right side needs: FIRST of each and the symbols in one word, a row of words for each rule, and the links
// between the rules of one left side (`Pushes` of the theory).
ghost use Rattle.std.specs.Prelude.{◌≡◌, ◌<◌, ◌≤◌, ℕ, get_or, length};
ghost use Rattle.grammar.specs.Words.{Shaped, nonterminal_count, rule_count};
ghost use Rattle.grammar.specs.Grammar.{grammar_of};
ghost use Rattle.grammar.specs.Theory.Tables.{Pushes};
ghost use Rattle.verdict.specs.Sets.{SetsOf};
ghost use Rattle.verdict.specs.Rows.{RowTo};
ghost use Rattle.verdict.specs.Filling.{Filling};

use firsts::Masks;
use shape::rules::Rules;

// Fills both tables, from FIRST of each nonterminal and the mask of those that can be empty.
pub fn fill(rules: &Rules<'_>, sets: &[u64], sides: &mut [u64], rows: &mut [u16])
    requires shaped { Shaped rules.now }
    requires sets_of { SetsOf rules.now sets.now }
    requires sides_len { length sides.old ≡ 512 }
    requires rows_len { length rows.old ≡ 4224 }
    ensures { Pushes (grammar_of rules.now) (nonterminal_count rules.now) (rule_count rules.now)
        sides.new rows.new }
{
    let masks = Masks::new(rules, sets[64], &sets[0..64]);
    firsts::rule_firsts(&masks, &mut sides[0..256]);
    rows[0..128].fill(0);
    write_rows(rules, sides, rows);
}

// The row of each rule, its right side in one word, and the link to the last rule of each nonterminal. A rule whose FIRST is
// empty becomes no link: no expand chooses it.
fn write_rows(rules: &Rules<'_>, sides: &mut [u64], rows: &mut [u16])
    requires { Filling rules.now 0 sides.old rows.old }
    ensures { Pushes (grammar_of rules.now) (nonterminal_count rules.now) (rule_count rules.now)
        sides.new rows.new }
{
    for p in 0..rules.rule_count() {
        let left = 64 + usize::from(rules.left_of(p));
        let link = rows[left];
        let begins = sides[p];
        let at = 128 + 16 * p;
        sides[256 + p] = write_row(rules.right_side(p), link, &mut rows[at..at + 16]);
        if 0 < begins {
            rows[left] = (p + 1) as u16;
        }
    }
}

// Writes a rule's row: its symbols, the last one first, its length, and the link. Gives its right side in one word, where the
// first symbol has the lowest byte.
fn write_row(symbols: &[u16], link: u16, row: &mut [u16]) -> u64
    requires short { length symbols.now ≤ 8 }
    requires small { (i : ℕ) → i < length symbols.now → get_or symbols.now i 0 < 128 }
    requires row_len { length row.old ≡ 16 }
    ensures { RowTo symbols.now link (length symbols.now) row.new result }
{
    let size = symbols.len();
    row[8] = size as u16;
    row[9] = link;
    let mut right = 0u64;
    // Kept: by the index, since the row is written from its front while the symbols are read from their end.
    for i in 0..size {
        let symbol = symbols[size - 1 - i];
        row[i] = symbol;
        right = right * 256 + u64::from(symbol);
    }
    right
}
