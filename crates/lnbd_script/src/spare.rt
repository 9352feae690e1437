//! Buffers of commands that are over, for reads to come. What they hold is no matter to anyone. Each command takes one at most, and gives no more than
//! that back once it is retired: so there are never more than commands of a handle were under way at once.

ghost use Rattle.std.specs.Prelude.{◌≡◌, replicate, length, IfOk};

use lnbd_model::{Bytes, NoMemory};
use std::alloc::Global;

/// A buffer of so many bytes, whatever they are: the one that was used last, whose memory is the likeliest to be at hand. It takes
/// memory where none is free, or that one is shorter.
pub(crate) fn read_buffer(
    spare: &mut Vec<Vec<u8>>,
    alloc: Global,
    count: usize,
) -> Result<Bytes, NoMemory>
    ensures { IfOk result (λ buf. length buf ≡ count) }
{
    match spare.pop() {
        Some(mut buf) => {
            buf.truncate(count);
            let mut rest = zeros(alloc, count - buf.len())?;
            buf.append(&mut rest)?;
            Ok(Bytes::from_vec(buf))
        }
        None => {
            let buf = zeros(alloc, count)?;
            Ok(Bytes::from_vec(buf))
        }
    }
}

/// Keeps the buffer of a command that is over. Where it has no bytes, or there is no memory for its place, it is let go.
pub(crate) fn keep_buffer(spare: &mut Vec<Vec<u8>>, bytes: Bytes) {
    if bytes.len() != 0 {
        let _kept = spare.push(bytes.into_vec());
    }
}

/// So many zeros.
fn zeros(alloc: Global, count: usize) -> Result<Vec<u8>, NoMemory>
    ensures zeros { IfOk result (λ zeros. zeros.items ≡ replicate count 0) }
    ensures length { IfOk result (λ zeros. length zeros.items ≡ count) }
{
    let zeros = Vec::from_elem(alloc, 0, count)?;
    Ok(zeros)
}
