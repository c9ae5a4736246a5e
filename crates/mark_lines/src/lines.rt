// The lines of print_marks: document 02, request (iv). Each function writes as much as fits.
ghost use Rattle.std.specs.Prelude.{List, ◌≡◌, ℕ, ◌+◌, ◌*◌, ◌≤◌, ◌<◌, length};
ghost use Rattle.grammar.specs.MarkLines.{added_count, mark_line, mark_lines, mark_listing, marks_line};
ghost use Rattle.listing.specs.Answer.{Wrote};
ghost use Rattle.listing.specs.Pens.{Penned};
ghost use Rattle.mark_lines.specs.Told.{Placed, mark_of, marks_in};

use listing::lines::Pen;

// A word that is lower is the place of a kept mark; any other is an added token, raised by so much. `mark_of` of specs/Told.antt says so.
pub const ADDED: u16 = 4096;

// Writes the lines of the marks that words tell into the buffer, as much as fits, and gives how many bytes that are.
pub fn listed(words: &[u16], log: &[u16], ticks: &[u32], out: &mut [u8]) -> usize
    requires { Placed words.now log.now ticks.now }
    ensures wrote { Wrote out.old (mark_listing ticks.now (marks_in log.now words.now))
        out.new result }
    ensures words_len_bound { length (mark_listing ticks.now (marks_in log.now words.now))
        ≤ 22 * length words.now + 54 }
{
    let mut pen = Pen::new(out, 0);
    put_marks(&mut pen, words, log, ticks);
    put_last(&mut pen, words.len(), added_in(words));
    pen.end()
}

// The last line.
fn put_last(pen: &mut Pen<'_>, marks: usize, added: usize)
    ensures { Penned pen.old (marks_line marks added) pen.new }
{
    pen.field(b"marks ", marks as u64);
    pen.field(b" added ", added as u64);
    pen.byte(b'\n');
}

// How many of the words are added tokens.
fn added_in(words: &[u16]) -> usize
    ensures { (log : List ℕ) → result ≡ added_count (marks_in log words.now) }
{
    words.iter().filter(|x| ADDED <= **x).count()
}

// The lines of the marks.
fn put_marks(pen: &mut Pen<'_>, words: &[u16], log: &[u16], ticks: &[u32])
    requires { Placed words.now log.now ticks.now }
    ensures { Penned pen.old (mark_lines ticks.now (marks_in log.now words.now)) pen.new }
{
    for &word in words {
        put_mark(pen, word, log, ticks);
    }
}

// The line of the mark that a word tells.
fn put_mark(pen: &mut Pen<'_>, word: u16, log: &[u16], ticks: &[u32])
    requires word_in_bounds { word < 4096 → word < length log.now }
    requires ticks_len { length ticks.now ≡ length log.now }
    ensures { Penned pen.old (mark_line ticks.now (mark_of log.now word)) pen.new }
{
    if ADDED <= word {
        pen.field(b"add ", u64::from(word - ADDED));
    } else {
        let place = usize::from(word);
        pen.field(b"keep ", u64::from(log[place]));
        pen.field(b" ", u64::from(ticks[place]));
    }
    pen.byte(b'\n');
}
