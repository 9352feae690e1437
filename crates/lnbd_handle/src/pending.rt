//! The bytes that arrived and are no whole record yet. Of a reply that brings data to a read all that stands before the data is held, with what
//! it announces, so that it is judged once, and apart from it the data that came so far, in a buffer with room for each read in flight: once it is
//! full it becomes the command's own. So they are copied once, and holding them takes no memory. What the bytes mean is not known here.

ghost use Rattle.std.specs.Prelude.{◌≡◌, ◌≤◌, ◌<◌, ◌+◌, ◌++◌, [], true, false, Some, None, length, take, vec_len, IfOk, IsOk, OnOk, OnErr};
ghost use Rattle.lnbd_records.specs.Transmission.{simple_head_size};
ghost use Rattle.lnbd_structured.specs.Placed.{written};
ghost use Rattle.lnbd_handle.specs.Held.{data_in, held_in};
ghost use Rattle.lnbd_handle.specs.Room.{IsKept, longest_front};

use lnbd_arrivals::Announced;
use lnbd_model::NoMemory;
use std::alloc::Global;

/// How many bytes stand before the data of a reply at most, for which there is always room: the head of an extended chunk (NBD protocol,
/// "Extended reply chunk message") and the place of its data.
const LONGEST_FRONT: usize = 40;

/// Bytes in two parts, one behind the other.
#[derive(Drop)]
pub(crate) struct Pending {
    /// The front of a record.
    pub(crate) head: Vec<u8>,
    /// What it announces, where it is all that stands before the data of a reply. These are held apart from it.
    pub(crate) announced: Option<Announced>,
    /// A buffer that begins with data of a reply.
    pub(crate) content: Vec<u8>,
    /// How many data came, in bytes.
    pub(crate) came: usize,
}

impl Pending {
    /// None.
    pub(crate) fn new(alloc: Global) -> Result<Pending, NoMemory>
        ensures empty { IfOk result (λ pending. held_in pending ≡ []) }
        ensures head { IfOk result (λ pending. pending.head.items ≡ []) }
        ensures none { IfOk result (λ pending. pending.announced ≡ None) }
        ensures kept { IfOk result IsKept }
    {
        Ok(Pending {
            head: Vec::with_capacity(alloc, LONGEST_FRONT)?,
            announced: None,
            content: Vec::new(alloc),
            came: 0,
        })
    }

    pub(crate) fn is_empty(&self) -> bool
        requires { IsKept self.now }
        ensures none { result ≡ true → held_in self.now ≡ [] }
        ensures some { result ≡ false → 0 < length (held_in self.now) }
    {
        self.head.is_empty() && self.came == 0
    }

    /// Drops all of them, and keeps their memory.
    pub(crate) fn clear(&mut self)
        requires { IsKept self.old }
        ensures empty { held_in self.new ≡ [] }
        ensures head { self.new.head.items ≡ [] }
        ensures none { self.new.came ≡ 0 }
        ensures unannounced { self.new.announced ≡ None }
        ensures kept { IsKept self.new }
        ensures room { self.new.content ≡ self.old.content }
    {
        self.head.clear();
        self.announced = None;
        self.came = 0;
    }

    /// Holds the front of a record that announces nothing, where nothing is held. For want of memory still nothing is, but there is room for the
    /// head of a simple reply.
    pub(crate) fn hold(&mut self, front: &[u8]) -> Result<(), NoMemory>
        requires empty { held_in self.old ≡ [] }
        requires kept { IsKept self.old }
        ensures ok { OnOk result (held_in self.new ≡ front.now) }
        ensures err { OnErr result (held_in self.new ≡ []) }
        ensures kept { IsKept self.new }
        ensures room { self.new.content ≡ self.old.content }
        ensures head { length self.new.head.items ≤ length front.now }
        ensures came { self.new.came ≡ self.old.came }
        ensures unannounced { self.new.announced ≡ None }
        ensures memory { length front.now ≤ simple_head_size → IsOk result }
    {
        self.announced = None;
        self.head.extend_from_slice(front)?;
        Ok(())
    }

    /// Holds more data, for which there is room.
    pub(crate) fn put(&mut self, more: &[u8])
        requires fits { self.old.came + length more.now ≤ vec_len self.old.content }
        requires kept { IsKept self.old }
        ensures head { self.new.head ≡ self.old.head }
        ensures announced { self.new.announced ≡ self.old.announced }
        ensures came { self.new.came ≡ self.old.came + length more.now }
        ensures data { data_in self.new ≡ data_in self.old ++ more.now }
        ensures before { take self.old.came self.new.content.items ≡ data_in self.old }
        ensures kept { IsKept self.new }
        ensures room { vec_len self.new.content ≡ vec_len self.old.content }
    {
        write_at(&mut self.content, self.came, more);
        self.came += more.len();
    }

    /// Holds what stands before the data of a reply, with what it announces, and apart from it some of the data, where nothing is held. It takes no
    /// memory.
    pub(crate) fn hold_apart(
        &mut self,
        head: &[u8],
        announced: Announced,
        more: &[u8],
    ) -> Result<(), NoMemory>
        requires empty { held_in self.old ≡ [] }
        requires short { length head.now ≤ longest_front }
        requires fits { length more.now ≤ vec_len self.old.content }
        requires kept { IsKept self.old }
        ensures held { held_in self.new ≡ head.now ++ more.now }
        ensures head { self.new.head.items ≡ head.now }
        ensures announced { self.new.announced ≡ Some announced }
        ensures kept { IsKept self.new }
        ensures room { vec_len self.new.content ≡ vec_len self.old.content }
        ensures memory { IsOk result }
    {
        self.announced = Some(announced);
        self.head.extend_from_slice(head)?;
        self.put(more);
        Ok(())
    }

    /// Makes room for so many data. For want of memory nothing has changed but that.
    pub(crate) fn make_room(&mut self, size: usize) -> Result<(), NoMemory>
        requires { IsKept self.old }
        ensures held { held_in self.new ≡ held_in self.old }
        ensures head { self.new.head ≡ self.old.head }
        ensures announced { self.new.announced ≡ self.old.announced }
        ensures came { self.new.came ≡ self.old.came }
        ensures kept { IsKept self.new }
        ensures ok { OnOk result (size ≤ vec_len self.new.content) }
        ensures grows { vec_len self.old.content ≤ vec_len self.new.content }
    {
        if self.content.len() < size {
            self.content.resize(size, 0)?;
        }
        Ok(())
    }
}

/// Writes bytes into a buffer from a place on.
fn write_at(buffer: &mut Vec<u8>, at: usize, bytes: &[u8])
    requires { at + length bytes.now ≤ vec_len buffer.old }
    ensures bytes { buffer.new.items ≡ written buffer.old.items at bytes.now }
    ensures len { vec_len buffer.new ≡ vec_len buffer.old }
{
    buffer[at..at + bytes.len()].copy_from_slice(bytes);
}
