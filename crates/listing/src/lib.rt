// From the bytes of standard input to the bytes of the listing: document 01, "The printed listing", whole. Only the reads and
// the writes of the program are outside.
#![tactic(auto)]

ghost use Rattle.std.specs.Prelude.{◌≤◌, length};
ghost use Rattle.listing.specs.Leads.{Kept};
ghost use Rattle.listing.specs.Answer.{Appends};
ghost use Rattle.listing.specs.Shown.{Shown, ShownWhole};

pub mod input;
pub mod lines;

// Puts the listing of an input in front of the buffer, and gives its length. The room holds the input's first `size` bytes; where it
// is full, whatever stood behind them decides nothing: 30,216 bytes are the count, 11 blocks and 4,097 entries.
// Kept: a slice of the bytes kept would not say whether the room is full, which `ShownWhole` asks.
pub fn show(room: &[u8], size: usize, out: &mut [u8]) -> usize
    requires in_bounds { 30216 ≤ length room.now }
    requires size_in_bounds { size ≤ length room.now }
    requires in_bounds_2 { 155817 ≤ length out.old }
    ensures { ShownWhole room.now size out.old out.new result }
{
    show_input(&room[..size], out)
}

// Keeps a part of an input in the room, behind the bytes kept so far and as far as they fit, and gives how many are then kept.
pub fn keep(room: &mut [u8], size: usize, part: &[u8]) -> usize
    requires { size ≤ length room.old }
    ensures { Appends room.old size part.now room.new result }
{
    let mut pen = lines::Pen::new(room, size);
    pen.text(part);
    pen.end()
}

// The listing of an input that was kept whole. 4,097 tokens are enough to tell that there are too many.
fn show_input(input: &[u8], out: &mut [u8]) -> usize
    requires { 155817 ≤ length out.old }
    ensures { Shown input.now out.old out.new result }
{
    let mut words = [0u16; 2783];
    let mut tokens = [0u16; 4097];
    let mut ticks = [0u32; 4097];
    match input::take_apart(input, &mut words, &mut tokens, &mut ticks) {
        Ok(parts) => show_run(
            input,
            &words[..parts.words],
            &tokens[..parts.tokens],
            &ticks[..parts.ticks],
            out,
        ),
        Err(refusal) => lines::refused(refusal, out),
    }
}

// The same, of these words, tokens and ticks. The contract alone reads the input.
fn show_run(input: &[u8], words: &[u16], log: &[u16], ticks: &[u32], out: &mut [u8]) -> usize
    requires in_bounds { 155817 ≤ length out.old }
    requires kept { Kept input.now words.now log.now ticks.now }
    ensures { Shown input.now out.old out.new result }
{
    let mut edits = [0u16; 24576];
    let mut rules = [0u16; 16384];
    match pace::report(words, log, ticks, &mut edits, &mut rules) {
        Ok((report, counts)) => lines::listed(
            log.len(),
            counts,
            &edits[..3 * counts.records],
            report,
            out,
        ),
        Err(refusal) => lines::refused(refusal, out),
    }
}
