// The program `write_grammar` but for its name: document 02, request (i). It reads a text of decimal numbers from an input, as standard
// input, to its end and writes the grammar file of these words. A read that fails is never taken for the end: nothing is written then.
#![tactic(auto)]

ghost use Rattle.std.specs.Prelude.{◌≡◌, ◌≤◌, min, length, take};
ghost use Rattle.making.specs.declared.Unmade.TheVariants.{NoNumber, Refused};
ghost use Rattle.making.specs.Answer.{FileMade, Knows, Makes, TextRead, TextWhole};

use grammar::Refusal;
use input::Outputs;
use spelling::Spelled;
use std::io;
use std::io::{Error, ErrorKind, Read};

// Why a text comes to no file: its words are refused, or one of them is no number. `Makes` of specs/Answer.antt says when.
#[derive(Clone, Copy, Debug, PartialEq, Eq)]
pub enum Unmade {
    Refused(Refusal),
    NoNumber(spelling::NoNumber),
}

impl From<Refusal> for Unmade {
    ghost from_gives = { λ refusal unmade. unmade ≡ Refused refusal };

    fn from(refusal: Refusal) -> Unmade {
        Unmade::Refused(refusal)
    }
}

impl From<spelling::NoNumber> for Unmade {
    ghost from_gives = { λ word unmade. unmade ≡ NoNumber word };

    fn from(word: spelling::NoNumber) -> Unmade {
        Unmade::NoNumber(word)
    }
}

// Writes the grammar file of the words of what the reader reads. Where there is none, standard error gets a line that says why.
pub fn run<R: Read>(reader: &mut R) {
    run_on(&Outputs, reader);
}

// The same by a handle that prints, as a program has one. The words have room for one more than a file holds, so that too many are seen; the
// bytes for the 11 blocks of the longest file.
pub fn run_on<R: Read>(rt: &(impl Print + Eprint), reader: &mut R) {
    let mut words = [0u16; 2784];
    let mut bytes = [0u8; 5632];
    let told = match read_text(reader, &mut words) {
        Ok(state) => make(rt, state, &mut words, &mut bytes),
        Err(_) => eprintln!(rt; "write_grammar: standard input could not be read"),
    };
    // Where the line for standard error fails too, nothing is left to be done.
    let _ = told;
}

// Goes through the reader's input to its end. A proved loop has to end, and nothing says that the input does: the turns are more than any
// input has.
fn read_text<R: Read>(reader: &mut R, words: &mut [u16]) -> io::Result<Spelled>
    ensures known { TextRead result words.new }
    ensures whole { TextWhole (R.remaining reader.old) (R.remaining reader.new) words.old result words.new }
{
    let mut space = [0u8; 65536];
    let mut state = spelling::begin();
    for _ in 0..u64::MAX {
        match input::read_part(reader, &mut space)? {
            Some(part) => state = spelling::take(state, part, words),
            None => return Ok(state),
        }
    }
    Err(Error::from(ErrorKind::TimedOut))
}

// Writes the file of the text that was gone through, or tells why there is none.
fn make(
    rt: &(impl Print + Eprint),
    state: Spelled,
    words: &mut [u16],
    bytes: &mut [u8],
) -> io::Result<()>
    requires knows { Knows state words.old }
    requires in_bounds { 2784 ≤ length words.old }
{
    match file_of(state, words, bytes) {
        Ok(size) => rt.write_all(&bytes[..size]).or_else(|_| eprintln!(rt;
            "write_grammar: the file could not be written"
        )),
        Err(Unmade::Refused(refusal)) => eprintln!(rt;
            "write_grammar: refused {}",
            u32::from(refusal)
        ),
        Err(Unmade::NoNumber(word)) => {
            eprintln!(rt;
                "write_grammar: word {} is no number from 0 to 65535",
                word.place
            )
        }
    }
}

// Puts the file of the text that was gone through in front of the bytes; zeros stand behind it, and everywhere where there is none.
fn file_of(state: Spelled, words: &mut [u16], bytes: &mut [u8]) -> Result<usize, Unmade>
    requires { 2784 ≤ length words.old }
    ensures { Makes state words.old (length bytes.old) result bytes.new }
{
    base::fill_from(bytes, 0, 0);
    let count = spelling::finish(state, words)?;
    write(words, count, bytes)
}

// Puts the file of the first words in front of the bytes. Of a count that is more than the buffer has, all its words are taken: they are
// too many then too.
fn write(words: &[u16], count: usize, bytes: &mut [u8]) -> Result<usize, Unmade>
    ensures { FileMade (take (min count (length words.now)) words.now) (length bytes.old)
        result bytes.new }
{
    let size = count.min(words.len());
    Ok(writer::write(&words[..size], bytes)?)
}
