//! A copy from one export to another: its connections, what is asked on them and when, and why it does not end well.
//! The slices that are begun and not over stand on the board of `lnbd_board`, which is the world of all callbacks.
//! Nothing is read or written but through the traits of the outside. What a copy of which one side is a file does as this one does is public too.
#![tactic(auto)]

mod agreeing;
mod copier;
mod counts;
mod dealing;
mod dialing;
mod forgetting;
mod job;
mod laws;
mod opening;
mod parting;
mod running;
mod telling;
mod terms;
mod turning;
mod wanting;
mod windows;

pub use agreeing::{are_quiet, check_well, info_of, is_same, tells_extents};
pub use copier::{Copier, Progress};
pub use counts::{Counts, check_counts, check_idles};
pub use dialing::{MAX_TURNS, hold, wait};
pub use laws::vain_writes_are_last;
pub use opening::open;
pub use parting::has_parted;
pub use terms::{UNKNOWN, broken_rule, settled};
pub use turning::{check_calm, turn};
pub use wanting::check_loud;
pub use windows::{Wanted, Windows};
