// From the bytes of standard input to the lines of print_marks: document 02, request (iv). The input is the printing program's, and only
// the reads and the writes of the program are outside.
#![tactic(auto)]

ghost use Rattle.std.specs.Prelude.{◌≡◌, ℕ, ◌≤◌, ◌<◌, get_or, length, replicate};
ghost use Rattle.listing.specs.Leads.{Kept};
ghost use Rattle.mark_lines.specs.Shown.{MarksShown, MarksShownWhole};

mod lines;

// Puts the lines of an input in front of the buffer, and gives their length. The room holds the input's first `size` bytes; where it
// is full, whatever stood behind them decides nothing: 30,216 bytes are the count, 11 blocks and 4,097 entries.
// Kept: a slice of the bytes kept would not say whether the room is full, which `MarksShownWhole` asks.
pub fn show(room: &[u8], size: usize, out: &mut [u8]) -> usize
    requires in_bounds { 30216 ≤ length room.now }
    requires size_in_bounds { size ≤ length room.now }
    requires in_bounds_2 { 1441846 ≤ length out.old }
    ensures { MarksShownWhole room.now size out.old out.new result }
{
    show_input(&room[..size], out)
}

// Room for the lines of any input: `show` asks for as much. It is made here since a proof that had to look at so long an array would count
// it out, element by element.
pub fn buffer() -> [u8; 1441846]
    ensures { result ≡ replicate 1441846 0 }
{
    [0u8; 1441846]
}

// The lines of an input that was kept whole. 4,097 tokens are enough to tell that there are too many.
// Kept beside listing's: one function for both needs a trait with the lines as a ghost member and a type for each, which is longer.
fn show_input(input: &[u8], out: &mut [u8]) -> usize
    requires { 1441846 ≤ length out.old }
    ensures { MarksShown input.now out.old out.new result }
{
    let mut words = [0u16; 2783];
    let mut tokens = [0u16; 4097];
    let mut ticks = [0u32; 4097];
    match listing::input::take_apart(input, &mut words, &mut tokens, &mut ticks) {
        Ok(parts) => show_run(
            input,
            &words[..parts.words],
            &tokens[..parts.tokens],
            &ticks[..parts.ticks],
            out,
        ),
        Err(refusal) => listing::lines::refused(refusal, out),
    }
}

// The same, of these words, tokens and ticks. The contract alone reads the input. A kept mark comes back as its place in the log, by which
// it has its tick.
fn show_run(input: &[u8], words: &[u16], log: &[u16], ticks: &[u32], out: &mut [u8]) -> usize
    requires in_bounds { 1441846 ≤ length out.old }
    requires log_len_bound { length log.now ≤ 4097 }
    requires kept { Kept input.now words.now log.now ticks.now }
    ensures { MarksShown input.now out.old out.new result }
{
    let mut edits = [0u16; 24576];
    let mut rules = [0u16; 16384];
    let mut marked = [0u16; 65536];
    let mut places = [0u16; 4097];
    number(&mut places);
    let n = log.len();
    let timed = ticks.len() == n;
    match marks::marks_as(
        words,
        log,
        timed,
        &places[..n],
        lines::ADDED,
        &mut edits,
        &mut rules,
        &mut marked,
    ) {
        Ok((_, count)) => lines::listed(&marked[..count], log, ticks, out),
        Err(refusal) => listing::lines::refused(refusal, out),
    }
}

// Each place's own number.
fn number(places: &mut [u16])
    requires { length places.old ≤ 65536 }
    ensures { (p : ℕ) → p < length places.new → get_or places.new p 0 ≡ p }
{
    for (i, place) in places.iter_mut().enumerate() {
        *place = i as u16;
    }
}
