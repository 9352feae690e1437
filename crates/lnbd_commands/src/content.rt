//! The bytes that a reply brings: some that are copied, or a buffer that is taken over. Of which command they are
//! is not known here.

ghost use Rattle.std.specs.Prelude.{◌≡◌, Some, length, vec_len};
ghost use Rattle.lnbd_structured.specs.Told.{content_in};
ghost use Rattle.lnbd_commands.specs.Contents.{IsSpare, bytes_in, told_of};

use lnbd_structured::Told;
use std::alloc::Global;

/// What a simple reply brings.
#[derive(Drop)]
pub(crate) enum Content<'a> {
    /// Bytes to be copied.
    Copied(&'a [u8]),
    /// A buffer to be taken over.
    Moved(Vec<u8>),
}

impl Content<'_> {
    pub(crate) fn as_slice(&self) -> &[u8]
        ensures { result.now ≡ bytes_in self.now }
    {
        match self {
            Content::Copied(bytes) => bytes,
            Content::Moved(buffer) => buffer.as_slice(),
        }
    }

    /// A buffer that holds these bytes, in the place of one of the same length, and one that is not needed any more. For one
    /// that was handed in, one of its length comes back.
    pub(crate) fn into_buffer(self, alloc: Global, buffer: Vec<u8>) -> (Vec<u8>, Vec<u8>)
        requires { length (bytes_in self) ≡ vec_len buffer }
        ensures filled { result.0.items ≡ bytes_in self.entry }
        ensures spare { IsSpare (Some self.entry) (length result.1.items) }
    {
        match self {
            Content::Copied(bytes) => {
                let mut filled = buffer;
                filled.copy_from_slice(bytes);
                (filled, Vec::new(alloc))
            }
            Content::Moved(filled) => (filled, buffer),
        }
    }
}

/// The buffer that was handed in, where these bytes are not needed.
pub(crate) fn spare_of(alloc: Global, content: Option<Content<'_>>) -> Vec<u8>
    ensures { IsSpare content.entry (length result.items) }
{
    match content {
        Some(Content::Moved(buffer)) => buffer,
        Some(Content::Copied(_)) => Vec::new(alloc),
        None => Vec::new(alloc),
    }
}

/// What a chunk brings.
#[derive(Drop)]
pub(crate) enum Brought<'a> {
    /// What it tells. Data are copied.
    Told(Told<'a>),
    /// Data from a place of the export on, in a buffer to be taken over.
    Filled { offset: u64, buffer: Vec<u8> },
}

impl Brought<'_> {
    /// What it tells.
    pub(crate) fn told(&self) -> Told<'_>
        ensures { content_in result ≡ told_of self.now }
    {
        match self {
            Brought::Told(told) => *told,
            Brought::Filled { offset, buffer } => Told::Data {
                offset: *offset,
                bytes: buffer.as_slice(),
            },
        }
    }
}
