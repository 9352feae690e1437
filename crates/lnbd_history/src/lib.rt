//! What the calls on one handle and the bytes that came to it mean: what was agreed, what arrived,
//! what goes out, what each command comes to, which callbacks are called, and what each call answers.
//! Definitions and their laws; no code but small plain data.
#![tactic(auto)]

mod kinds;
mod laws_of_history;
mod laws_of_live;

pub use kinds::{Completed, OptAnswer, Peeked, Phase, Stage};
pub use laws_of_history::{
    callbacks_are_called_once, close_frees_all, cuts_do_not_matter, export_name_reply_is_filled,
    payload_is_filled, turns_come_to_what_is_agreed,
};
pub use laws_of_live::{live_are_in_flight, none_lives_after_close};
