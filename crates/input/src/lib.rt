// Parts of an input, as standard input, and what to print by where there is no handle of the system. A read that fails is told apart from
// the end, so that no program takes one for the other.
#![tactic(auto)]

ghost use Rattle.input.specs.Parts.{FrontFits, FrontTaken, PartFits, PartFront, PartTaken};

mod outputs;

pub use outputs::{Outputs, tell};
use std::io;
use std::io::Read;

// Reads a part of the reader's input to the front of the space and gives its length; none at the end of the input. Each error is a read
// that failed, one that a signal interrupts too.
pub fn read_front<R: Read>(reader: &mut R, space: &mut [u8]) -> io::Result<Option<usize>>
    ensures fits { FrontFits space.new result }
    ensures taken { FrontTaken (R.remaining reader.old) (R.remaining reader.new) space.new result }
{
    match reader.read(space) {
        Ok(0) => Ok(None),
        Ok(count) => Ok(Some(count)),
        Err(error) => Err(error),
    }
}

// The same, and gives the part itself. No clause names what the space holds while the part is lent, so this one says where the part lies;
// who wants to know the space asks `read_front`.
pub fn read_part<'a, R: Read>(reader: &mut R, space: &'a mut [u8]) -> io::Result<Option<&'a [u8]>>
    ensures fits { PartFits space.old result }
    ensures front { PartFront space.entry result }
    ensures taken { PartTaken (R.remaining reader.old) (R.remaining reader.new) space.old result }
{
    match read_front(reader, space)? {
        Some(count) => Ok(Some(&space[..count])),
        None => Ok(None),
    }
}
