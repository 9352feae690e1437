//! A copy of which a side is a file. Of two files of one store it is whole; of a file and an export it is the file's part: what the board of a copy
//! asks of a file is done at once, while its connections take turns. How connections are made and turned is known by `lnbd_connections`, and how a copy
//! between exports goes by `lnbd_copy`.
#![tactic(auto)]

mod between;
mod desk;
mod fault;
mod file_copy;
mod filling;
mod forgetting;
mod from_file;
mod from_file_job;
mod holes;
mod laws;
mod loading;
mod making;
mod passing;
mod reading;
mod sending;
mod to_file;
mod to_file_job;
mod writing;

pub use desk::{First, begin_slice, go_on};
pub use fault::{FileFault, Stop};
pub use file_copy::FileCopy;
pub use laws::{all_is_copied, all_is_summed, loading_keeps, making_keeps, nothing_hangs};
pub use loading::load_slice;
