// The words that a text of decimal numbers spells: from the bytes that the setup desk edits to grammar words. A text comes in parts of any
// length, and a part may end within a number. specs/Text.antt says what a text spells.
#![tactic(auto)]

ghost use Rattle.std.specs.Prelude.{◌≡◌, ◌∷◌, [], set};
ghost use Rattle.base.specs.Telling.{Tells};
ghost use Rattle.spelling.specs.Text.{Blank};
ghost use Rattle.spelling.specs.Answer.{Begun, Finished, Took, WentOn};

// How far a text is spelled, after so many numbers that have ended. `Says` of specs/Answer.antt says what each stands for.
#[derive(Clone, Copy, Debug, PartialEq, Eq)]
pub enum Spelled {
    // No word is begun.
    Between(usize),
    // A number of this value is begun.
    Within(usize, u16),
    // The next word is no number.
    Stopped(usize),
}

// The first word of a text that is no number: its place, from 1 on.
#[derive(Clone, Copy, Debug, PartialEq, Eq)]
pub struct NoNumber {
    pub place: usize,
}

// Before the first byte of a text.
pub fn begin() -> Spelled
    ensures { Begun result }
{
    Spelled::Between(0)
}

// Goes through the next part of a text. Each number that ends is stored in the buffer, if it has a place.
pub fn take(state: Spelled, part: &[u8], words: &mut [u16]) -> Spelled
    ensures { Took state part.now words.old result words.new }
{
    let mut reached = state;
    for &byte in part {
        reached = step(reached, byte, words);
    }
    reached
}

// Ends the text: how many words it has, all of them numbers, or the first that is none; nothing bounds a text, so the largest number stands
// for all above it. Where all words are numbers, the buffer holds
// them, as far as they fit, and zeros behind; else it is zero.
pub fn finish(state: Spelled, words: &mut [u16]) -> Result<usize, NoNumber>
    ensures { Finished state words.old result words.new }
{
    match state {
        Spelled::Between(count) => {
            base::fill_from(words, count, 0);
            Ok(count)
        }
        Spelled::Within(count, value) => {
            store(words, count, value);
            let all = count.saturating_add(1);
            base::fill_from(words, all, 0);
            Ok(all)
        }
        Spelled::Stopped(count) => {
            base::fill_from(words, 0, 0);
            Err(NoNumber {
                place: count.saturating_add(1),
            })
        }
    }
}

// Goes through one byte.
fn step(state: Spelled, byte: u8, words: &mut [u16]) -> Spelled
    ensures { Took state (byte ∷ []) words.old result words.new }
{
    match state {
        Spelled::Between(count) => {
            if blank(byte) {
                return Spelled::Between(count);
            }
            go_on(count, 0, byte)
        }
        Spelled::Within(count, value) => {
            if blank(byte) {
                store(words, count, value);
                return Spelled::Between(count.saturating_add(1));
            }
            go_on(count, value, byte)
        }
        Spelled::Stopped(count) => Spelled::Stopped(count),
    }
}

// A word of this value with one byte more, which is not blank.
fn go_on(count: usize, value: u16, byte: u8) -> Spelled
    ensures { WentOn count value byte result }
{
    if !byte.is_ascii_digit() {
        return Spelled::Stopped(count);
    }
    match u16::try_from(10 * u32::from(value) + u32::from(byte - b'0')) {
        Ok(longer) => Spelled::Within(count, longer),
        Err(_) => Spelled::Stopped(count),
    }
}

// Stores a word, if the buffer has the place. Kept: the contract of `get_mut` does not say what the slice ends as.
fn store(words: &mut [u16], place: usize, value: u16)
    ensures { words.new ≡ set words.old place value }
{
    if place < words.len() {
        words[place] = value;
    }
}

// Space, tab, newline or carriage return.
fn blank(byte: u8) -> bool
    ensures { Tells (Blank byte) result }
{
    matches!(byte, b' ' | b'\t' | b'\n' | b'\r')
}
