//! The hello and the heads of the transmission phase, put into bytes and read from them (NBD protocol,
//! "Transmission"). Nothing here takes memory, and nothing is read past the slice. No payload is read
//! here, and no head is judged beyond its magic.
#![tactic(auto)]

mod chunk;
mod extended_chunk;
mod extended_request;
mod hello;
mod law;
mod put;
mod read;
mod request;
mod simple;

pub use chunk::{ChunkHead, put_chunk_head, read_chunk_head};
pub use extended_chunk::{ExtHead, put_chunk_head_ext, read_chunk_head_ext};
pub use extended_request::{ExtRequest, put_disconnect_ext, put_request_ext, read_request_ext};
pub use hello::{HelloRead, read_hello};
pub use law::read_again;
pub use read::Read;
pub use request::{RequestHead, put_disconnect, put_request, read_request};
pub use simple::{SimpleHead, put_simple, read_simple};
