//! The answers of a handle's calls as text, as scripts print them: states, refusals, results, notes, what
//! was told of an export, and what options came to. Each function adds one answer, without the end of its line, to a text.
//! Where memory runs out, what the text then holds is not said, and it is not to be used.
//! No call is made here, and nothing is written out.
#![tactic(auto)]

mod heard;
mod information;
mod notes;
mod options;
mod quoted;
mod refusals;
mod results;
mod runs;
mod states;

pub use heard::{push_chunk, push_complete, push_extents};
pub use information::push_info;
pub use notes::{push_log, push_note};
pub use options::{push_listing, push_opt_answer};
pub use quoted::push_quoted;
pub use refusals::{push_refusal, push_refused_state};
pub use results::{push_completed, push_peeked};
pub use runs::push_runs;
pub use states::{push_cause, push_state};
