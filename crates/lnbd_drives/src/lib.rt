//! Laws of handles in turns: each drives its link, and so the link says what the handle's history
//! says. Definitions and laws; no code.
#![tactic(auto)]

mod laws;

pub use laws::{
    all_said, callers_drive, done_said, driven_said, export_was_told, handles_are_of, handles_tell,
    info_was_told, new_drive, nothing_waits, other_calls_pass, passing_calls_drive, said_stays,
    short_turns_drive, taken_drive, turns_drive, turns_give_none, turns_pass_others,
};
