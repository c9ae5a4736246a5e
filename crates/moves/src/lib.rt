// The state of a run and the moves that change it, the parser's stack, and what the tables say of its symbols. The state is numbers
// only, by value; the stack is a slice beside it, whose top is its last cell in use: `pile` of specs/Pile.antt.
#![tactic(auto)]

ghost use Rattle.std.specs.Prelude.{◌≡◌, Bool, ◌+◌, ◌-◌, ◌*◌, ◌/◌, ◌%◌, ◌≤◌, ◌<◌, ◌^◌, length, get_or};
ghost use Rattle.moves.specs.States.{
  CanCount,
  deleted_by,
  dropped_by,
  expanded_by,
  inserted_by,
  matched_by,
  started,
  windowless,
};
ghost use Rattle.moves.specs.Tests.{begins_by, empty_by, pick_by};
ghost use Rattle.moves.specs.Windows.{CanSee};
ghost use Rattle.moves.specs.Ways.{CanDescend, WayOf};
ghost use Rattle.moves.specs.Push.{CanPush, Pushed};

// Where a run is: the current place of the log, the symbols on the stack, what is counted, and the window, which shows what lies
// uppermost on the stack once more (specs/Windows.antt).
#[derive(Clone, Copy, Debug, PartialEq, Eq)]
pub struct Parser {
    pub place: usize,
    pub height: usize,
    pub moves: usize,
    pub records: usize,
    pub listed: usize,
    pub window: u64,
}

// Document 01: "Every match, expand, drop, delete and insert counts one move."
impl Parser {
    // START over END, before the first token.
    pub fn new() -> Self
        ensures { result ≡ started }
    {
        Self {
            place: 0,
            height: 2,
            moves: 0,
            records: 0,
            listed: 0,
            window: 0,
        }
    }

    // Match: "one pop, next token".
    pub fn matched(mut self) -> Self
        requires { CanCount self × (1 ≤ self.height) }
        ensures { result ≡ matched_by self }
    {
        self.place += 1;
        self.height -= 1;
        self.moves += 1;
        self.window /= 256;
        self
    }

    // Expand: "one pop, the right side is pushed, the rule number is listed". `size` symbols are pushed, which the window shows.
    pub fn expanded(mut self, size: usize, window: u64) -> Self
        requires { CanCount self × (1 ≤ self.height) × (size ≤ 256) }
        ensures { result ≡ expanded_by size window self }
    {
        self.height = self.height - 1 + size;
        self.listed += 1;
        self.moves += 1;
        self.window = window;
        self
    }

    // Drop: "one pop, nothing listed".
    pub fn dropped(mut self) -> Self
        requires { CanCount self × (1 ≤ self.height) }
        ensures { result ≡ dropped_by self }
    {
        self.height -= 1;
        self.moves += 1;
        self.window = self.window / 256;
        self
    }

    // A delete passes its token.
    pub fn deleted(mut self) -> Self
        requires { CanCount self }
        ensures { result ≡ deleted_by self }
    {
        self.place += 1;
        self.records += 1;
        self.moves += 1;
        self
    }

    // An insert pops its symbol.
    pub fn inserted(mut self) -> Self
        requires { CanCount self × (1 ≤ self.height) }
        ensures { result ≡ inserted_by self }
    {
        self.height -= 1;
        self.records += 1;
        self.moves += 1;
        self
    }

    // No move: what a correction leaves is read from the stack.
    pub fn windowless(mut self) -> Self
        ensures { result ≡ windowless self }
    {
        self.window = 0;
        self
    }
}

// ---- The top

// The symbol that the window has on top, 0 where it has none. `Shows` of specs/Windows.antt says what a window is.
fn lowest(window: u64) -> u16
    ensures { result ≡ window % 256 }
{
    (window % 256) as u16
}

// The symbol on top: from the window, since reading back what was written a moment ago is what a run would wait for.
fn top_of(stack: &[u16], height: usize, window: u64) -> u16
    requires { CanSee stack.now height window }
    ensures { result ≡ get_or stack.now (height - 1) 0 }
{
    let symbol = lowest(window);
    if symbol == 0 {
        stack[height - 1]
    } else {
        symbol
    }
}

// ---- What the tables say of a symbol

// Token t is in FIRST of the symbol.
pub fn begins(masks: &[u64], symbol: u16, t: u16) -> bool
    requires { (symbol < 128) × (t < 64) × (65 ≤ length masks.now) }
    ensures { result ≡ begins_by masks.now symbol t }
{
    if symbol < 64 {
        symbol == t
    } else {
        sets::has(masks[usize::from(symbol - 64)], t)
    }
}

// The symbol can be empty.
pub fn empty(masks: &[u64], symbol: u16) -> bool
    requires { (symbol < 128) × (65 ≤ length masks.now) }
    ensures { result ≡ empty_by masks.now symbol }
{
    if symbol < 64 {
        false
    } else {
        sets::has(masks[NULLS], symbol - 64)
    }
}

// Where the table of masks has the nonterminals that can be empty, behind FIRST of each of 64.
const NULLS: usize = 64;

// ---- The choice of move

#[derive(Clone, Copy, Debug, PartialEq, Eq)]
enum Pick {
    Match,
    Expand,
    Drop,
    Error,
}

// "The choice of move is one decision over all cases of top and token": by the top's range, and whether the token is in its
// FIRST and it can be empty. Kept: tried with guards in place of the nested tests, and a run was slower by an eighth.
fn choose(top: u16, begins: bool, empty: bool) -> Pick
    ensures { result ≡ pick_by top begins empty }
{
    match top {
        0 => { if begins { Pick::Match } else { Pick::Error } }
        1..=63 => { if begins { Pick::Match } else { Pick::Error } }
        _ => {
            if begins {
                return Pick::Expand;
            }
            if empty { Pick::Drop } else { Pick::Error }
        }
    }
}

// Where a token leads: the top is it, with what stood above dropped; or a nonterminal that it begins, which is given too; or it is in
// error.
#[derive(Clone, Copy, Debug, PartialEq, Eq)]
pub enum Way {
    Fits(Parser),
    Grows(Parser, u16),
    Stuck,
}

// Makes the drops for token t on a copy of the state: where the token is in error the caller's state stands.
pub fn descend(masks: &[u64], stack: &[u16], p: Parser, t: u16) -> Way
    requires { CanDescend masks.now stack.now p t }
    ensures { WayOf masks.now stack.now t p result }
{
    let mut d = p;
    while 0 < d.height {
        let top = top_of(stack, d.height, d.window);
        let pick = choose(top, begins(masks, top, t), empty(masks, top));
        match pick {
            Pick::Match => return Way::Fits(d),
            Pick::Expand => return Way::Grows(d, top),
            Pick::Drop => {
                d = d.dropped();
            }
            Pick::Error => return Way::Stuck,
        }
    }
    Way::Stuck
}

// Copies eight words of a rule's row to the stack, whatever the rule's length is.
pub fn push(rows: &[u16], from: usize, stack: &mut [u16], at: usize)
    requires { CanPush rows.now from stack.old at }
    ensures { Pushed rows.now from stack.old at stack.new }
{
    // Kept: by `copy_from_slice` a run was slower by a tenth.
    for i in 0..8 {
        stack[at + i] = rows[from + i];
    }
}
