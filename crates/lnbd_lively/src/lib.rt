//! What a server owes a client that waits for it, over served wires: laws; no code.
#![tactic(auto)]

mod laws;

pub use laws::{
    clients_are_heard, driven_answer, driven_reads_bring, driven_speak_fairly, fair_sessions_go_on,
    first_calls_move, go_is_known, open_answer, served_answer, served_speak_fairly,
    waited_reads_bring,
};
