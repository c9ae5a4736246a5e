// The shape of grammar words, where each rule stands, and what stands there. Refusal 5 is given exactly where the words
// do not have the shape.
#![tactic(auto)]

ghost use Rattle.std.specs.Prelude.{◌≡◌, ◌+◌, ◌*◌, ◌≤◌, ◌<◌, ℕ, List, length, get_or};
ghost use Rattle.base.specs.Telling.{Tells};
ghost use Rattle.grammar.specs.Words.{
  Marks,
  Restart,
  RuleSymbol,
  Shaped,
  UnitOne,
  closing,
  header_size,
  insert_cost,
  nonterminal_count,
  opening,
  reliability,
  restart_mark,
  rule_count,
  terminal_count,
};
ghost use Rattle.shape.specs.Ready.{Ready};
ghost use Rattle.shape.specs.Accessors.{TerminalsOf, header_words};
ghost use Rattle.shape.specs.Parts.{
  AllSymbols,
  Between,
  Decides,
  EndAsked,
  EndRight,
  HeaderRight,
  RuleRight,
  RulesRight,
  TerminalsRight,
};

pub mod rules;

// The least number of words: the six-word header and END's two words.
const LEAST: usize = 8;

// "Such grammars have T + 256 in word 0": beyond it the header is the seven-word one of request (vi).
const LONG: u16 = 256;

// ---- The test

// Whether the words have the shape; where they do, `places` holds the place of each rule. Any list of words may come, and
// no word behind its end is read.
pub fn shape(words: &[u16], places: &mut [u16]) -> bool
    requires { 256 ≤ length places.old }
    ensures { Decides (Ready words.now places.new) (Shaped words.now) result }
{
    if !header_right(words) {
        return false;
    }
    if !terminals_right(words) {
        return false;
    }
    rules_right(words, places)
}

// The header, that the terminals' words lie inside the list, and END's two words.
fn header_right(words: &[u16]) -> bool
    ensures { Tells (HeaderRight words.now) result }
{
    if words.len() < LEAST {
        return false;
    }
    let t = terminals(words);
    between(t, 1, 64)
        && between(words[1], 1, 64)
        && between(words[2], 1, 256)
        && marks_right(t, words[3], words[4])
        && between(words[5], 0, 1)
        && restart_right(t, words[3], words[4], restart_word(words))
        && end_right(words, t)
}

// The terminals' words lie inside the list, and END's two are 0.
fn end_right(words: &[u16], t: u16) -> bool
    requires { EndAsked words.now t }
    ensures { Tells (EndRight words.now) result }
{
    let at = header_size(words);
    at + 2 * usize::from(t) <= words.len() && words[at] == 0 && words[at + 1] == 0
}

// ---- Which header stands there, by word 0 alone

// How many words the header has: the terminals' words begin behind it.
fn header_size(words: &[u16]) -> usize
    requires { 1 ≤ length words.now }
    ensures { result ≡ header_size words.now }
{
    if LONG < words[0] { 7 } else { 6 }
}

// T.
fn terminals(words: &[u16]) -> u16
    requires { 1 ≤ length words.now }
    ensures { result ≡ terminal_count words.now }
{
    let word = words[0];
    if LONG < word { word - LONG } else { word }
}

// The restart mark, 0 where there is none.
fn restart_word(words: &[u16]) -> u16
    requires { 7 ≤ length words.now }
    ensures { result ≡ restart_mark words.now }
{
    if LONG < words[0] { words[6] } else { 0 }
}

// ---- The parts of the shape

// Each mark 1..T-1, or both 0.
fn marks_right(t: u16, opening: u16, closing: u16) -> bool
    ensures { Tells (Marks t opening closing) result }
{
    if opening == 0 {
        return closing == 0;
    }
    closing != 0 && opening < t && closing < t
}

// The restart mark 1..T-1 and neither of the marks, or 0.
fn restart_right(t: u16, opening: u16, closing: u16, restart: u16) -> bool
    ensures { Tells (Restart t opening closing restart) result }
{
    restart == 0 || (restart != opening && restart != closing && restart < t)
}

// Cost 1..1,000 and reliability 0..60,000 of each terminal but END.
fn terminals_right(words: &[u16]) -> bool
    requires { HeaderRight words.now }
    ensures { Tells (TerminalsRight words.now) result }
{
    let count = usize::from(terminals(words));
    let from = header_size(words);
    for t in 1..count {
        if !(between(words[from + 2 * t], 1, 1000) && between(words[from + 2 * t + 1], 0, 60000)) {
            return false;
        }
    }
    true
}

// Every rule, where the one before it ends, and that the words end with the last.
fn rules_right(words: &[u16], places: &mut [u16]) -> bool
    requires header_right { HeaderRight words.now }
    requires in_bounds { 256 ≤ length places.old }
    ensures { Decides (RulesRight words.now places.new) (Shaped words.now) result }
{
    let count = usize::from(words[2]);
    let n = words[1];
    let t = terminals(words);
    let mut at = header_size(words) + 2 * usize::from(t);
    for p in 0..count {
        if !rule_right(words, at, t, n) {
            return false;
        }
        places[p] = at as u16;
        at = at + 2 + usize::from(words[at + 1]);
    }
    at == words.len()
}

// The words of the rule at a place: its left side 0..N-1, its length 0..8, its symbols, all inside the list. It counts
// what is left behind the place, so that no sum can overflow.
fn rule_right(words: &[u16], at: usize, t: u16, n: u16) -> bool
    requires { at ≤ length words.now }
    ensures { Tells (RuleRight words.now at t n) result }
{
    let left = words.len() - at;
    if left < 2 {
        return false;
    }
    if n <= words[at] {
        return false;
    }
    let size = usize::from(words[at + 1]);
    if 8 < size {
        return false;
    }
    if left - 2 < size {
        return false;
    }
    symbols_right(&words[at + 2..at + 2 + size], t, n)
}

// The symbols of a right side.
fn symbols_right(symbols: &[u16], t: u16, n: u16) -> bool
    ensures { Tells (AllSymbols symbols.now t n) result }
{
    for &x in symbols {
        if !symbol_right(x, t, n) {
            return false;
        }
    }
    true
}

// A terminal 1..T-1 or a nonterminal 64..64+N-1.
fn symbol_right(x: u16, t: u16, n: u16) -> bool
    ensures { Tells (RuleSymbol t n x) result }
{
    x != 0 && (x < t || (64 <= x && x - 64 < n))
}

// The word is in a range.
fn between(x: u16, low: u16, high: u16) -> bool
    ensures { Tells (Between low high x) result }
{
    (low..=high).contains(&x)
}

// ---- The unit, in any words

// Refusal 16: "unit 1, that is, six words or more with word 5 equal to 1".
pub fn unit_one(words: &[u16]) -> bool
    ensures { Tells (UnitOne words.now) result }
{
    6 <= words.len() && words[5] == 1
}

// ---- What stands in words that have the shape

// T, terminals.
pub fn terminal_count(words: &[u16]) -> usize
    requires { Shaped words.now }
    ensures { result ≡ terminal_count words.now }
{
    usize::from(terminals(words))
}

// N, nonterminals.
pub fn nonterminal_count(words: &[u16]) -> usize
    requires { Shaped words.now }
    ensures { result ≡ nonterminal_count words.now }
{
    usize::from(header(words, 1))
}

// P, rules.
pub fn rule_count(words: &[u16]) -> usize
    requires { Shaped words.now }
    ensures { result ≡ rule_count words.now }
{
    usize::from(header(words, 2))
}

// The opening mark of a cycle, 0 where there is none.
pub fn opening(words: &[u16]) -> u16
    requires { Shaped words.now }
    ensures { result ≡ opening words.now }
{
    header(words, 3)
}

// The closing mark of a cycle, 0 where there is none.
pub fn closing(words: &[u16]) -> u16
    requires { Shaped words.now }
    ensures { result ≡ closing words.now }
{
    header(words, 4)
}

// The restart mark, 0 where there is none.
pub fn restart(words: &[u16]) -> u16
    requires { Shaped words.now }
    ensures { result ≡ restart_mark words.now }
{
    restart_word(words)
}

// A word of the header that both headers have.
fn header(words: &[u16], i: usize) -> u16
    requires shaped { Shaped words.now }
    requires i_bound { i < 6 }
    ensures { result ≡ get_or (header_words words.now) i 0 }
{
    words[i]
}

// Where the terminals' words begin.
pub fn terminals_at(words: &[u16]) -> usize
    requires { Shaped words.now }
    ensures { result ≡ header_size words.now }
{
    header_size(words)
}

// The two words of each terminal, END's first: its insert cost and its reliability. END's counts as unlimited.
pub fn terminal_words(words: &[u16]) -> &[u16]
    requires { Shaped words.now }
    ensures { TerminalsOf words.now result.now }
{
    let at = terminals_at(words);
    let count = terminal_count(words);
    &words[at..at + 2 * count]
}

// The insert cost of terminal t, of the terminals' words. Whoever goes through all terminals asks for these words once.
pub fn insert_cost(terminals: &[u16], t: usize) -> u16
    requires { 2 * t + 1 < length terminals.now }
    ensures value { result ≡ get_or terminals.now (2 * t) 0 }
    ensures cost { (ws : List ℕ) → TerminalsOf ws terminals.now → result ≡ insert_cost ws t }
{
    terminals[2 * t]
}

// The reliability of terminal t, as it stands in the terminals' words; END's counts as unlimited.
pub fn reliability_of(terminals: &[u16], t: usize) -> u16
    requires { 2 * t + 1 < length terminals.now }
    ensures value { result ≡ get_or terminals.now (2 * t + 1) 0 }
    ensures reliability { (ws : List ℕ) → TerminalsOf ws terminals.now → result ≡ reliability ws t }
{
    terminals[2 * t + 1]
}
