// The functions of the static library: reading, writing, checking, pricing, parsing, marking and pacing for callers that know numbers and
// slices alone. None asks for anything beforehand. `include/odhrashup.h` declares them.
#![tactic(auto)]

ghost use Rattle.std.specs.Prelude.{◌≡◌, [], ◌∷◌, length};
ghost use Rattle.grammar.specs.Refusals.{number_of};
ghost use Rattle.exports.specs.Status.{
  CheckedAs,
  DeskAs,
  MarksAs,
  PacedAs,
  ParsedAs,
  ReadAs,
  WrittenAs,
  counted,
  fitted,
  pace_float,
  pace_status,
  plus_zero,
};

use grammar::{Pace, Refusal, Report};

// The status of a report without a clean cycle.
const IDLE: u32 = 1000;

// Reads a grammar file. The status is 0 or 1 to 4; counts[0] is the number of words.
#[unsafe(no_mangle)]
pub extern "C" fn odhrashup_read(bytes: &[u8], words: &mut [u16], counts: &mut [u64]) -> u32
    ensures { ReadAs bytes.now (length words.old) (length counts.old) result
        words.new counts.new }
{
    match file::read(bytes, words) {
        Ok(count) => accepted(counts, &[count as u64]),
        Err(unread) => refused(counts, unread),
    }
}

// Writes a grammar file. The status is 0, 13 or 14; counts[0] is the number of bytes.
#[unsafe(no_mangle)]
pub extern "C" fn odhrashup_write(words: &[u16], bytes: &mut [u8], counts: &mut [u64]) -> u32
    ensures { WrittenAs words.now (length bytes.old) (length counts.old) result
        bytes.new counts.new }
{
    match writer::write(words, bytes) {
        Ok(size) => accepted(counts, &[size as u64]),
        Err(unwritten) => refused(counts, unwritten),
    }
}

// Checks grammar words. The status is 0 or 5 to 9.
#[unsafe(no_mangle)]
pub extern "C" fn odhrashup_check(words: &[u16]) -> u32
    ensures { CheckedAs words.now result }
{
    match verdict::check(words) {
        Ok(()) => 0,
        Err(refusal) => u32::from(refusal),
    }
}

// Lists the cost and the cheapest rule of each nonterminal. The status is 0, 5 to 9, or 23; counts[0] is the number of nonterminals.
#[unsafe(no_mangle)]
pub extern "C" fn odhrashup_costs(
    words: &[u16],
    costs: &mut [u16],
    rules: &mut [u16],
    counts: &mut [u64],
) -> u32
    ensures { DeskAs words.now (length costs.old) (length rules.old)
        (length counts.old) result costs.new rules.new counts.new }
{
    match desk::costs(words, costs, rules) {
        Ok(nonterminals) => accepted(counts, &[nonterminals as u64]),
        Err(unlisted) => refused(counts, unlisted),
    }
}

// Repairs a log. The status is 0 or 5 to 12; the counts are the moves, the edit records and the rule numbers.
#[unsafe(no_mangle)]
pub extern "C" fn odhrashup_parse(
    words: &[u16],
    log: &[u16],
    edits: &mut [u16],
    rules: &mut [u16],
    counts: &mut [u64],
) -> u32
    ensures { ParsedAs words.now log.now (length edits.old) (length rules.old)
        (length counts.old) result edits.new rules.new counts.new }
{
    match parser::parse(words, log, edits, rules) {
        Ok(made) => {
            let three = [made.moves as u64, made.records as u64, made.listed as u64];
            accepted(counts, &three)
        }
        Err(unparsed) => refused(counts, unparsed),
    }
}

// Repairs a log and writes it in marks alone. The status is 0, 5 to 12, or 15; the counts are the three of the parse and the number of
// tokens.
#[unsafe(no_mangle)]
pub extern "C" fn odhrashup_marks(
    words: &[u16],
    log: &[u16],
    edits: &mut [u16],
    rules: &mut [u16],
    tokens: &mut [u16],
    counts: &mut [u64],
) -> u32
    ensures { MarksAs words.now log.now (length edits.old) (length rules.old)
        (length tokens.old) (length counts.old) result edits.new rules.new tokens.new
        counts.new }
{
    match marks::marks(words, log, edits, rules, tokens) {
        Ok((parse, size)) => {
            let four = [
                parse.moves as u64,
                parse.records as u64,
                parse.listed as u64,
                size as u64,
            ];
            accepted(counts, &four)
        }
        Err(unmarked) => refused(counts, unmarked),
    }
}

// Repairs a log and times its clean cycles. The status is 0, 1000 where the station is idle, or 5 to 12; the counts are the
// clean cycles and the sum of their times in ms. mean[0] is the mean, or NaN where the station is idle.
#[unsafe(no_mangle)]
pub extern "C" fn odhrashup_pace(
    words: &[u16],
    log: &[u16],
    ticks: &[u32],
    edits: &mut [u16],
    rules: &mut [u16],
    counts: &mut [u64],
    mean: &mut [f64],
) -> u32
    ensures { PacedAs words.now log.now ticks.now (length edits.old)
        (length rules.old) (length counts.old) (length mean.old) result edits.new
        rules.new counts.new mean.new }
{
    match pace::report(words, log, ticks, edits, rules) {
        Ok((report, _)) => put_report(report, counts, mean),
        Err(unpaced) => {
            fit(mean, &[], 0.0);
            refused(counts, unpaced)
        }
    }
}

// Writes a report where it fits, and gives its status.
fn put_report(report: Report, counts: &mut [u64], mean: &mut [f64]) -> u32
    ensures status { result ≡ pace_status report.pace }
    ensures counts { counts.new ≡ counted (length counts.old) (report.count ∷ report.sum ∷ []) }
    ensures mean { mean.new ≡ fitted plus_zero (length mean.old) (pace_float report.pace ∷ []) }
{
    fit(counts, &[u64::from(report.count), report.sum], 0);
    match report.pace {
        Pace::Mean(ms) => {
            fit(mean, &[ms], 0.0);
            0
        }
        Pace::Idle => {
            let none = 0.0 / 0.0;
            fit(mean, &[none], 0.0);
            IDLE
        }
    }
}

// ---- What they share

// Writes the counts of an answer, and gives its status.
fn accepted(counts: &mut [u64], values: &[u64]) -> u32
    ensures status { result ≡ 0 }
    ensures counts { counts.new ≡ counted (length counts.old) values.now }
{
    fit(counts, values, 0);
    0
}

// Leaves no count, and gives the status of a refusal.
fn refused(counts: &mut [u64], refusal: Refusal) -> u32
    ensures status { result ≡ number_of refusal }
    ensures counts { counts.new ≡ counted (length counts.old) [] }
{
    fit(counts, &[], 0);
    u32::from(refusal)
}

// Writes values from the buffer's front on, as far as they fit, and `blank` into every cell behind them.
fn fit<T: Copy>(cells: &mut [T], values: &[T], blank: T)
    ensures { cells.new ≡ fitted blank (length cells.old) values.now }
{
    // Kept: by the index, as the library's copy would have the archive for C call memcpy, and it calls memset alone.
    for (i, &value) in values.iter().enumerate() {
        if i < cells.len() {
            cells[i] = value;
        }
    }
    base::fill_from(cells, values.len(), blank);
}
