//! What was asked and answered on links, from the transcript of their calls alone, and which servers
//! are honest over it. Definitions and their laws; no code.
#![tactic(auto)]

mod laws;

pub use laws::{
    both_sides_are_steady, calls_follow, copied_is_held, driven_are_of, driven_say_so, driven_tell,
    early_is_read_late, flags_are_read, in_step_says_so, others_pass, read_are_counted, reads_join,
    same_is_as_honest, sizes_are_of_exports, stays_in_step, told_stays, what_is_said_is_read,
    whole_are_requests,
};
