// What the test programs share: the steps and texts that their input holds, old content of the buffers that they lend, and one number for
// what a call leaves in a buffer.
#![tactic(auto)]

ghost use Rattle.std.specs.Prelude.{◌≡◌, ℕ, ◌<◌, ◌≤◌, length, map, replicate, set, take, IfOk, IfSome, OnOk, None};
ghost use Rattle.std.specs.Io.KnownBytes.{Consumes, IsAtEnd};
ghost use Rattle.std.specs.Iterator.{at_most};
ghost use Rattle.test_buffers.specs.Digest.{digest_of};
ghost use Rattle.test_buffers.specs.Input.{Filled, Passed, SizeIn, SizeTaken, TextIn, TextTaken};

use std::io;
use std::io::{Error, ErrorKind, Read};

// ---- Buffers

// What a lent buffer is made of: words or bytes.
pub trait Cell: Copy {
    // The number that a cell holds.
    ghost value: { Self → ℕ };

    // Old content, which is not zero.
    ghost OLD: { Self };

    const OLD: Self;

    fn number(self) -> usize
        ensures value { result ≡ value self }
        ensures upper_bound { result < 65536 };
}

impl Cell for u16 {
    ghost value = { λ x. x };

    ghost OLD = { 43690 };

    const OLD: u16 = 43690;

    fn number(self) -> usize {
        usize::from(self)
    }
}

impl Cell for u8 {
    ghost value = { λ x. x };

    ghost OLD = { 170 };

    const OLD: u8 = 170;

    fn number(self) -> usize {
        usize::from(self)
    }
}

// Old content: no cell of it is zero.
pub fn put_old<T: Cell>(buffer: &mut [T])
    ensures { buffer.new ≡ replicate (length buffer.old) T.OLD }
{
    base::fill_from(buffer, 0, T::OLD);
}

// A number that tells what the buffer holds: 0 where all of it is zero, and any left cell shows in it.
pub fn digest<T: Cell>(buffer: &[T]) -> u64
    ensures { result ≡ digest_of (map T.value buffer.now) (length buffer.now) }
{
    let mut sum = 0usize;
    for &cell in buffer {
        sum = (sum * 65599 + cell.number()) % 4294967291;
    }
    sum as u64
}

// Sets a cell, where the buffer has the place. Kept: the contract of `get_mut` does not say what the slice ends as.
pub fn change<T: Copy>(buffer: &mut [T], place: u16, cell: T)
    ensures { buffer.new ≡ set buffer.old place cell }
{
    let place = usize::from(place);
    if place < buffer.len() {
        buffer[place] = cell;
    }
}

// ---- Input

// The steps of an input, each so many little endian numbers of two bytes. Nothing says that an input ends, and a loop has to: the turns are
// more than any input has steps. A read that a signal interrupts is tried again.
#[derive(Drop)]
pub struct Steps<R, const N: usize> {
    reader: R,
    turns: u64,
}

impl<R: Read, const N: usize> Steps<R, N> {
    pub fn new(reader: R) -> Steps<R, N>
        ensures reader { result.reader ≡ reader }
        ensures turns { result.turns ≡ 18446744073709551615 }
    {
        Steps {
            reader,
            turns: u64::MAX,
        }
    }
}

impl<R: Read + Drop, const N: usize> Iterator for Steps<R, N> {
    type Item = io::Result<[u16; N]>;

    ghost remaining = { λ s. at_most s.turns };

    fn next(&mut self) -> Option<io::Result<[u16; N]>> {
        self.turns = self.turns.checked_sub(1)?;
        read_numbers(&mut self.reader).transpose()
    }

    // How many steps are left is not known before they are read.
    fn size_hint(&self) -> (usize, Option<usize>) {
        (0, None)
    }
}

// The next step of an input, number by number; none where it ends before.
fn read_numbers<R: Read, const N: usize>(reader: &mut R) -> io::Result<Option<[u16; N]>> {
    let mut numbers = [0u16; N];
    for number in numbers.iter_mut() {
        let Some(bytes) = read_bytes(reader)? else {
            return Ok(None);
        };
        *number = u16::from_le_bytes(bytes);
    }
    Ok(Some(numbers))
}

// The steps of a test program's input, each by one read where the input has it whole. The turns are more than any stored input has steps, and
// a read that a signal interrupts has failed.
#[derive(Drop)]
pub struct FirstSteps<R, const N: usize> {
    reader: R,
    turns: u64,
}

impl<R: Read, const N: usize> FirstSteps<R, N> {
    pub fn new(reader: R) -> FirstSteps<R, N>
        ensures { result ≡ record { reader = reader; turns = 1000000 } }
    {
        FirstSteps {
            reader,
            turns: 1_000_000,
        }
    }
}

impl<R: Read + Drop, const N: usize> Iterator for FirstSteps<R, N> {
    type Item = io::Result<[u16; N]>;

    ghost remaining = { λ s. at_most s.turns };

    fn next(&mut self) -> Option<io::Result<[u16; N]>> {
        if self.turns == 0 {
            return None;
        }
        self.turns -= 1;
        read_step(&mut self.reader).transpose()
    }

    // How many steps are left is not known before they are read.
    fn size_hint(&self) -> (usize, Option<usize>) {
        (0, None)
    }
}

// The next step of an input, by one read where the input has it whole; none where it ends before.
fn read_step<R: Read, const N: usize>(reader: &mut R) -> io::Result<Option<[u16; N]>> {
    let mut pairs = [[0u8; 2]; N];
    if !fill(reader, pairs.as_flattened_mut())? {
        return Ok(None);
    }
    let mut numbers = [0u16; N];
    for (number, &pair) in numbers.iter_mut().zip(&pairs) {
        *number = u16::from_le_bytes(pair);
    }
    Ok(Some(numbers))
}

// The next text of an input, behind its length, which is a little endian number of four bytes: as much of it as the room holds stands in
// front of the room, and so long it is there. None where the input ends before. A read that a signal interrupts is tried again, but not one of
// the part that the room holds.
pub fn read_text<R: Read>(reader: &mut R, room: &mut [u8]) -> io::Result<Option<usize>>
    ensures fits { IfOk result (λ text. IfSome text (λ n. n ≤ length room.old)) }
    ensures taken { IfOk result (λ text. IfSome text (λ n. TextIn (R.remaining reader.old) (R.remaining reader.new) room.new n)) }
{
    let Some(size) = read_size(reader)? else {
        return Ok(None);
    };
    let fit = size.min(room.len());
    let (came, told) = read_full(reader, &mut room[..fit]);
    told?;
    pass(reader, size - fit)?;
    Ok(Some(came))
}

// Reads so many bytes and forgets them, or as many as the input has, by as long reads as std's `copy`. One that a signal interrupts is tried
// again: the turns are more than any input needs.
fn pass<R: Read>(reader: &mut R, count: usize) -> io::Result<()>
    ensures { Passed (R.remaining reader.old) (R.remaining reader.new) count }
{
    let mut space = [0u8; 8192];
    let mut left = count;
    for _ in 0..u64::MAX {
        if left == 0 {
            return Ok(());
        }
        let most = left.min(8192);
        match reader.read(&mut space[..most]) {
            Ok(0) => return Ok(()),
            Ok(more) => left -= more,
            Err(error) if error.kind() == ErrorKind::Interrupted => {}
            Err(error) => return Err(error),
        }
    }
    Err(Error::from(ErrorKind::TimedOut))
}

// The same for the test programs: a read that a signal interrupts has failed, and a read that fails behind the length ends the text, as the
// end of the input does, and not what reads texts.
pub fn read_text_once<R: Read>(reader: &mut R, room: &mut [u8]) -> io::Result<Option<usize>>
    ensures fits { IfOk result (λ text. IfSome text (λ n. n ≤ length room.old)) }
    ensures taken { TextTaken (R.remaining reader.old) (R.remaining reader.new) room.new result }
{
    let Some(size) = read_size_once(reader)? else {
        return Ok(None);
    };
    let kept = size.min(room.len());
    let (read, _) = read_full(reader, &mut room[..kept]);
    skip(reader, size - kept);
    Ok(Some(read))
}

// Reads until the buffer is full, the input ends or a read fails: how many bytes that are, and whether a read failed.
pub fn read_full<R: Read>(reader: &mut R, buffer: &mut [u8]) -> (usize, io::Result<()>)
    ensures fits { result.0 ≤ length buffer.old }
    ensures taken { Consumes (R.remaining reader.old) (R.remaining reader.new) (take result.0 buffer.new) }
    ensures ended { OnOk result.1 (result.0 < length buffer.old → IsAtEnd (R.remaining reader.new)) }
{
    let mut read = 0;
    while read < buffer.len() {
        match reader.read(&mut buffer[read..]) {
            Ok(0) => break,
            Ok(more) => read += more,
            Err(error) => return (read, Err(error)),
        }
    }
    (read, Ok(()))
}

// The length that stands in front of a text; none where the input ends before. A read that a signal interrupts is tried again.
pub fn read_size<R: Read>(reader: &mut R) -> io::Result<Option<usize>>
    ensures fits { IfOk result (λ size. IfSome size (λ n. n < 4294967296)) }
    ensures taken { IfOk result (λ size. IfSome size (λ n. SizeIn (R.remaining reader.old) (R.remaining reader.new) n)) }
{
    match read_bytes(reader)? {
        Some(bytes) => Ok(Some(u32::from_le_bytes(bytes) as usize)),
        None => Ok(None),
    }
}

// The next so many bytes of an input; none where it ends before.
fn read_bytes<R: Read, const N: usize>(reader: &mut R) -> io::Result<Option<[u8; N]>>
    ensures { IfOk result (λ read. IfSome read (λ bytes. Consumes (R.remaining reader.old) (R.remaining reader.new) bytes)) }
{
    let mut bytes = [0u8; N];
    match reader.read_exact(&mut bytes) {
        Ok(()) => Ok(Some(bytes)),
        Err(error) if error.kind() == ErrorKind::UnexpectedEof => Ok(None),
        Err(error) => Err(error),
    }
}

// The same for the test programs: a read that a signal interrupts has failed.
pub fn read_size_once<R: Read>(reader: &mut R) -> io::Result<Option<usize>>
    ensures fits { IfOk result (λ size. IfSome size (λ n. n < 4294967296)) }
    ensures taken { SizeTaken (R.remaining reader.old) (R.remaining reader.new) result }
{
    let mut bytes = [0u8; 4];
    if !fill(reader, &mut bytes)? {
        return Ok(None);
    }
    Ok(Some(u32::from_le_bytes(bytes) as usize))
}

// Reads so many bytes and forgets them, where the input ends or a read fails too: what comes behind that may be part of them.
fn skip<R: Read>(reader: &mut R, count: usize)
    ensures { Passed (R.remaining reader.old) (R.remaining reader.new) count }
{
    let mut space = [0u8; 512];
    for _ in 0..count / 512 {
        let _ = read_full(reader, &mut space);
    }
    let _ = read_full(reader, &mut space[..count % 512]);
}

// Fills the buffer, and answers whether the input had as much.
fn fill<R: Read>(reader: &mut R, buffer: &mut [u8]) -> io::Result<bool>
    ensures { IfOk result (λ whole. Filled (R.remaining reader.old) (R.remaining reader.new) buffer.new whole) }
{
    let (read, told) = read_full(reader, buffer);
    told?;
    Ok(read == buffer.len())
}

#[cfg(test)]
mod tests {
    use super::*;
    use std::test::Fail;

    // Reads a byte at a time, and a signal interrupts each read before it.
    #[derive(Drop)]
    struct Interrupted<'a> {
        bytes: &'a [u8],
        interrupted: bool,
    }

    impl<'a> Read for Interrupted<'a> {
        fn read(&mut self, buf: &mut [u8]) -> io::Result<usize> {
            self.interrupted = !self.interrupted;
            if self.interrupted {
                return Err(Error::from(ErrorKind::Interrupted));
            }
            let room = buf.len().min(1);
            self.bytes.read(&mut buf[..room])
        }
    }

    #[test]
    fn interrupted_reads_are_tried_again(rt: HostRuntime) -> Result<(), Fail> {
        let bytes: [u8; 18] = [3, 0, 0, 0, 65, 66, 67, 9, 0, 0, 0, 1, 2, 1, 0, 0, 0, 68];
        let mut reader = Interrupted {
            bytes: &bytes,
            interrupted: false,
        };
        assert_eq!(rt; read_text(&mut reader, &mut [])?, Some(0));
        assert_eq!(rt; read_size(&mut reader)?, Some(9));
        let step: Option<[u16; 1]> = Steps::new(&mut reader).next().transpose()?;
        assert_eq!(rt; step, Some([513]));
        // But not those of what the room holds; and a length has four bytes.
        assert!(rt; read_text(&mut reader, &mut [0]).is_err());
        assert_eq!(rt; read_size(&mut reader)?, None);
        Ok(())
    }

    #[test]
    fn those_of_the_test_programs_have_failed(rt: HostRuntime) {
        let bytes: [u8; 4] = [3, 0, 0, 0];
        let mut reader = Interrupted {
            bytes: &bytes,
            interrupted: false,
        };
        assert!(rt; read_size_once(&mut reader).is_err());
        assert!(rt; read_text_once(&mut reader, &mut []).is_err());
        let step: Option<io::Result<[u16; 1]>> = FirstSteps::new(&mut reader).next();
        assert!(rt; matches!(step, Some(Err(_))));
    }

    #[test]
    fn texts_are_kept_as_far_as_they_fit(rt: HostRuntime) -> Result<(), Fail> {
        let mut bytes: &[u8] = &[3, 0, 0, 0, 65, 66, 67, 1, 0, 0, 0, 68];
        let mut room = [0u8; 2];
        assert_eq!(rt; read_text(&mut bytes, &mut room)?, Some(2));
        assert_eq!(rt; room, [65, 66]);
        assert_eq!(rt; read_text(&mut bytes, &mut room)?, Some(1));
        assert_eq!(rt; room, [68, 66]);
        assert_eq!(rt; read_text(&mut bytes, &mut room)?, None);
        Ok(())
    }

    #[test]
    fn steps_go_on_behind_a_million(rt: HostRuntime) {
        assert_eq!(rt;
            Steps::<_, 1>::new(io::repeat(7).take(2_000_004)).count(),
            1_000_002
        );
        assert_eq!(rt;
            FirstSteps::<_, 1>::new(io::repeat(7).take(2_000_004)).count(),
            1_000_000
        );
    }
}
