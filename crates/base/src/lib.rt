// What every crate needs and none is about: buffers filled from a place on. The definitions that all share stand in specs/.
#![tactic(auto)]

ghost use Rattle.std.specs.Prelude.{◌≡◌, ◌++◌, ◌-◌, length, replicate, take};

// Every element from a place on becomes this value.
pub fn fill_from<T: Copy>(buffer: &mut [T], from: usize, value: T)
    ensures { buffer.new ≡ take from buffer.old ++ replicate (length buffer.old - from) value }
{
    for i in from..buffer.len() {
        buffer[i] = value;
    }
}
