// The lines of the listing: document 01, "The printed listing", second half. Each function writes as much as fits.
ghost use Rattle.std.specs.Prelude.{[], ◌∷◌, ◌++◌, ◌+◌, ◌*◌, ◌/◌, ◌≤◌, ◌≡◌, length};
ghost use Rattle.grammar.specs.Refusals.{number_of};
ghost use Rattle.grammar.specs.Listing.{
  decimal,
  edit_line,
  edit_lines,
  field,
  kind_word,
  listing,
  ok_line,
  pace_line,
  refused_line,
};
ghost use Rattle.listing.specs.Answer.{Wrote, records_of};

use grammar::{Counts, Pace, Refusal, Report};

// Writes the line of a refusal into the buffer, as much as fits, and gives how many bytes that are.
pub fn refused(refusal: Refusal, out: &mut [u8]) -> usize
    ensures { Wrote out.old (refused_line (number_of refusal)) out.new result }
{
    let mut pen = Pen::new(out, 0);
    pen.field(b"refused ", u64::from(u32::from(refusal)));
    pen.byte(b'\n');
    pen.end()
}

// Writes the listing of a run into the buffer, as much as fits, and gives how many bytes that are. `edits` are the words of
// its edit records; of 24,576 words the listing has at most 155,817 bytes.
pub fn listed(tokens: usize, counts: Counts, edits: &[u16], report: Report, out: &mut [u8]) -> usize
    ensures wrote { Wrote out.old (listing tokens counts (records_of edits.now) report) out.new result }
    ensures report_len_bound { length (listing tokens counts (records_of edits.now) report)
        ≤ 19 * (length edits.now / 3) + 169 }
{
    let mut pen = Pen::new(out, 0);
    pen.ok_line(tokens, counts);
    pen.edit_lines(edits);
    pen.pace_line(report);
    pen.end()
}

// Writes into a buffer, behind the bytes that end at `at`. A byte past the buffer's end is left out.
#[derive(Drop)]
pub struct Pen<'a> {
    out: &'a mut [u8],
    at: usize,
    ghost within: { at ≤ length out.now },
}

impl<'a> Pen<'a> {
    ghost use Rattle.listing.specs.Pens.{Penned};

    pub fn new(out: &'a mut [u8], at: usize) -> Pen<'a>
        requires { at ≤ length out.old }
        ensures same { result.out.ghost_name ≡ out.entry.ghost_name }
        ensures holds { result.out.now ≡ out.old }
        ensures begins { result.at ≡ at }
    {
        Pen { out, at }
    }

    // Where the bytes that were written end.
    pub fn end(self) -> usize
        ensures count { result ≡ self.entry.at }
        ensures stays { self.exit.0.now ≡ self.entry.out.now }
    {
        self.at
    }

    pub fn byte(&mut self, byte: u8)
        ensures { Penned self.old (byte ∷ []) self.new }
    {
        let at = self.at;
        if self.out.len() <= at {
            return;
        }
        self.out[at] = byte;
        self.at = at + 1;
    }

    pub fn text(&mut self, text: &[u8])
        ensures { Penned self.old text.now self.new }
    {
        let at = self.at;
        let count = text.len().min(self.out.len() - at);
        self.out[at..at + count].copy_from_slice(&text[..count]);
        self.at = at + count;
    }

    // A number in decimal: its last digit stands behind the digits of its tenth.
    fn decimal(&mut self, n: u64)
        ensures { Penned self.old (decimal n) self.new }
    {
        if n < 10 {
            self.byte(48 + n as u8);
            return;
        }
        self.decimal(n / 10);
        self.byte(48 + (n % 10) as u8);
    }

    // A word and a number.
    pub fn field(&mut self, word: &[u8], n: u64)
        ensures { Penned self.old (word.now ++ decimal n) self.new }
    {
        self.text(word);
        self.decimal(n);
    }

    // The first line.
    fn ok_line(&mut self, tokens: usize, counts: Counts)
        ensures { Penned self.old (ok_line tokens counts) self.new }
    {
        self.field(b"ok tokens ", tokens as u64);
        self.field(b" moves ", counts.moves as u64);
        self.field(b" edits ", counts.records as u64);
        self.field(b" rules ", counts.listed as u64);
        self.byte(b'\n');
    }

    // The edit lines, one for each three words.
    fn edit_lines(&mut self, edits: &[u16])
        ensures { Penned self.old (edit_lines (records_of edits.now)) self.new }
    {
        for record in edits.chunks_exact(3) {
            self.edit_line(record[0], record[1], record[2]);
        }
    }

    // The line of one edit record.
    fn edit_line(&mut self, kind: u16, place: u16, symbol: u16)
        ensures { Penned self.old (edit_line (record { kind = kind; place = place; symbol = symbol }))
            self.new }
    {
        self.kind(kind, place);
        self.field(b" ", u64::from(symbol));
        self.byte(b'\n');
    }

    // A record's kind and place.
    fn kind(&mut self, kind: u16, place: u16)
        ensures { Penned self.old (field (kind_word kind) place) self.new }
    {
        if kind == 1 {
            self.field(b"delete ", u64::from(place));
        } else {
            self.field(b"insert ", u64::from(place));
        }
    }

    // The last line.
    fn pace_line(&mut self, report: Report)
        ensures penned { Penned self.old (pace_line report.count report.sum report.pace) self.new }
        ensures pace_len_bound { length (pace_line report.count report.sum report.pace) ≤ 57 }
    {
        match report.pace {
            Pace::Idle => {
                self.text(b"pace idle");
                self.byte(b'\n');
            }
            Pace::Mean(_) => {
                self.field(b"pace cycles ", report.count as u64);
                self.field(b" ms ", report.sum);
                self.byte(b'\n');
            }
        }
    }
}
