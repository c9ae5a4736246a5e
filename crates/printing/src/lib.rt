// The programs that print but for their names: document 01, "The printed listing", and document 02, request (iv). Each reads an input, as
// standard input, to its end, keeps the bytes that decide what it prints, and writes that. A read that fails is never taken for the end:
// nothing is printed then.
#![tactic(auto)]

ghost use Rattle.std.specs.Prelude.{ℕ, ◌≤◌, length};
ghost use Rattle.printing.specs.Input.{InputFits, InputKept};

use input::Outputs;
use std::io;
use std::io::{Error, ErrorKind, Read};

// The count, 11 blocks and 4,097 entries: `show` asks for as much.
const ROOM: usize = 30216;

// Prints the listing of what the reader reads. Where a read or a write fails, standard error gets a line that says so.
pub fn run<R: Read>(reader: &mut R) {
    run_on(&Outputs, reader);
}

// The same by a handle that prints, as a program has one.
pub fn run_on<R: Read>(rt: &(impl Print + Eprint), reader: &mut R) {
    let told = print(
        rt,
        reader,
        "odhrashup: standard input could not be read",
        "odhrashup: the listing could not be written",
        |room: &[u8], size: usize| -> io::Result<()>
            requires in_bounds { 30216 ≤ length room.now }
            requires size_in_bounds { size ≤ length room.now }
        { write_listing(rt, room, size) },
    );
    // Where that line fails too, nothing is left to be done.
    let _ = told;
}

// Prints the marks of what the reader reads, one to a line, in the same way.
pub fn run_marks<R: Read>(reader: &mut R) {
    run_marks_on(&Outputs, reader);
}

// The same by such a handle.
pub fn run_marks_on<R: Read>(rt: &(impl Print + Eprint), reader: &mut R) {
    let told = print(
        rt,
        reader,
        "print_marks: standard input could not be read",
        "print_marks: the lines could not be written",
        |room: &[u8], size: usize| -> io::Result<()>
            requires in_bounds { 30216 ≤ length room.now }
            requires size_in_bounds { size ≤ length room.now }
        { write_marks(rt, room, size) },
    );
    let _ = told;
}

// Writes the listing of an input of which the room holds the first bytes.
fn write_listing(rt: &impl Print, room: &[u8], size: usize) -> io::Result<()>
    requires in_bounds { 30216 ≤ length room.now }
    requires size_in_bounds { size ≤ length room.now }
{
    let mut out = [0u8; 155817];
    let count = listing::show(room, size, &mut out);
    rt.write_all(&out[..count])
}

// Writes the marks of such an input.
fn write_marks(rt: &impl Print, room: &[u8], size: usize) -> io::Result<()>
    requires in_bounds { 30216 ≤ length room.now }
    requires size_in_bounds { size ≤ length room.now }
{
    let mut out = mark_lines::buffer();
    let count = mark_lines::show(room, size, &mut out);
    rt.write_all(&out[..count])
}

// Reads the reader's input and has what its first bytes say written; or says that it could not be read, or not be written.
fn print<R: Read, F: FnOnce(&[u8], usize) -> io::Result<()>>(
    rt: &impl Eprint,
    reader: &mut R,
    unread: &str,
    unwritten: &str,
    write: F,
) -> io::Result<()>
    requires { (room : _) (size : ℕ) → 30216 ≤ length room.now → size ≤ length room.now → F.pre write room size }
{
    let mut room = [0u8; ROOM];
    let Ok(size) = read_input(reader, &mut room) else {
        return rt.eprintln(unread);
    };
    write(&room, size).or_else(|_| rt.eprintln(unwritten))
}

// Reads the reader's input to its end, keeps as much of it as the room holds, and gives how much that is. A proved loop has to end, and
// nothing says that the input does: the turns are more than any input has.
fn read_input<R: Read>(reader: &mut R, room: &mut [u8]) -> io::Result<usize>
    ensures fits { InputFits room.new result }
    ensures kept { InputKept (R.remaining reader.old) (R.remaining reader.new) room.old room.new result }
{
    let mut space = [0u8; 65536];
    let mut size = 0;
    for _ in 0..u64::MAX {
        match input::read_part(reader, &mut space)? {
            Some(part) => size = listing::keep(room, size, part),
            None => return Ok(size),
        }
    }
    Err(Error::from(ErrorKind::TimedOut))
}
