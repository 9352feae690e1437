//! What the handles of a copy were asked, and what that came to, as lists of requests: what is told to the
//! copy's board. Definitions and their laws; no code, and no link.
#![tactic(auto)]

mod laws;

pub use laws::{
    asking_tracks, bytes_come_back, done_is_written, errors_are_told, failures_are_known,
    finished_tracks, heeding_keeps, mapped_are_told, mapping_keeps, nothing_tracks, one_happens,
    others_track, tracked_are_dealt, what_happens_keeps, zeroes_stay,
};
