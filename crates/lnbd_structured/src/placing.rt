//! Content put into the buffer of a read, each byte once. Whether it has a fault is not known here: what has one is not put.

ghost use Rattle.std.specs.Prelude.{◌≡◌, ◌+◌, ◌≤◌, length, replicate};
ghost use Rattle.lnbd_records.specs.Content as content;
ghost use Rattle.lnbd_structured.specs.Placed.{written, with_content};

/// Puts data of a read that begins at `offset`, from a place of the export on.
pub fn put_data(buffer: &mut [u8], offset: u64, place: u64, bytes: &[u8])
    requires from { offset ≤ place }
    requires within { place + length bytes.now ≤ offset + length buffer.old }
    ensures { buffer.new ≡ with_content offset (content.Data place bytes.now) buffer.old }
{
    write_in(buffer, (place - offset) as usize, bytes);
}

/// Puts so many zeros of a read that begins at `offset`, from a place of the export on.
pub fn put_zeros(buffer: &mut [u8], offset: u64, place: u64, size: u64)
    requires from { offset ≤ place }
    requires within { place + size ≤ offset + length buffer.old }
    ensures { buffer.new ≡ with_content offset (content.Hole place size) buffer.old }
{
    zero_in(buffer, (place - offset) as usize, size as usize);
}

fn write_in(buffer: &mut [u8], at: usize, bytes: &[u8])
    requires { at + length bytes.now ≤ length buffer.old }
    ensures { buffer.new ≡ written buffer.old at bytes.now }
{
    buffer[at..at + bytes.len()].copy_from_slice(bytes);
}

fn zero_in(buffer: &mut [u8], at: usize, size: usize)
    requires { at + size ≤ length buffer.old }
    ensures { buffer.new ≡ written buffer.old at (replicate size 0) }
{
    buffer[at..at + size].fill(0);
}
