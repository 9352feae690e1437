//! The course of a copy: what stands between two turns of its handles, by what its board keeps and its
//! links say, and that a copy which is finished leaves the source's bytes at the destination. Definitions
//! and their laws; no code, and no link.
#![tactic(auto)]

mod far;
mod laws;

pub use far::{
    asking_keeps_far, beginning_keeps_far, board_keeps_far, calls_show_far, ended_asks_once_far,
    ended_far, ended_flushes_far, ended_spares_far, file_keeps_far, hearing_keeps_far,
    parts_spare_far, turns_keep_far,
};
pub use laws::{
    asking_keeps, asking_keeps_between, asking_tells, beginning_keeps, beginning_keeps_between,
    beginning_tells, board_asks, board_moves_keep, board_moves_tell, calls_keep, calls_tell,
    carrying_copies, ended_all_done, ended_answers, ended_asks_once, ended_carries, ended_driven,
    ended_flushes, ended_spares, ended_sums, finished_carries, fronts_have_few,
    handles_are_asked_little, handles_have_few, hearing_tells, known_was_told, others_keep,
    others_tell, parts_ask_once, parts_spare, quiet_counts, taken_are_spelled, taking_keeps,
    taking_keeps_between, taking_tells, turns_fail, turns_keep, turns_keep_between, turns_tell,
};
