//! Handles over their links: one read, one write, and turns over several. Which link is ready first, what a handle makes of
//! its bytes, and how long is waited are no matter here.
#![tactic(auto)]

mod handles;
mod held;
mod inbox;
mod noticed;
mod notify;
mod wanting;

pub use handles::Handles;
pub use held::Held;
pub use inbox::Inbox;
pub use noticed::{Noticed, Turn};
pub use notify::{notify_read, notify_write, read_placed};
pub use wanting::{is_wanting, push_want, want_of};
