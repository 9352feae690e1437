//! What is kept of a command that is answered by structured chunks, in place of the chunks: which of its places and meta contexts were told,
//! and its first error (NBD protocol, "Structured reply chunk message" and "Extended reply chunk message").
//!
//! `Assembly` judges each chunk by its first bytes and takes it when it is whole. `specs/Assembly` has its value, which is the facts of `lnbd_outcome`
//! with what was asked; `specs/Laws` says that its calls together are one reply of the command. `put_data` and `put_zeros`
//! put content into a buffer of the caller's. `breach_shown` and the functions beside it are the grammar of a chunk's front, by which whoever reads
//! chunks judges them. No callback, no table of commands and no input or output stand here.
#![tactic(auto)]

mod assembly;
mod descriptors;
mod effect;
mod grammar;
mod laws;
mod placing;
mod status;
mod told;

pub use assembly::Assembly;
pub use descriptors::{descriptors_in, extended_descriptors_in};
pub use effect::{ChunkFault, Effect, Judged};
pub use grammar::{
    Waiting, breach_shown, fits_command, fits_length, fits_message, form_of, is_done, may_come,
};
pub use laws::{
    effects_are_heard, faults_stay_few, parts_tell_the_chunk, stands_for_its_chunks,
    steps_are_one_reply,
};
pub use placing::{put_data, put_zeros};
pub use told::Told;
