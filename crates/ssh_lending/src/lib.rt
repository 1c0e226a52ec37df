//! Buffers that a caller in C lends for an answer.
#![tactic(auto)]

ghost use Rattle.ssh_lending.specs.Lending.{Lends};

/// Writes the items to the front of the buffer, if they fit, and returns how many there are. A
/// buffer that is too short stays as it is.
pub fn lend<T: Copy>(items: &[T], out: &mut [T]) -> usize
    ensures { Lends items.now out.old out.new result }
{
    if items.len() <= out.len() {
        out[..items.len()].copy_from_slice(items);
    }
    items.len()
}
