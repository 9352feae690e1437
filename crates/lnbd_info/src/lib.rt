//! What nbdinfo prints (nbdinfo(1)): texts and JSON of what was told of exports, of the extents of a map
//! and of their sums, and the answers to its questions. No call on a link is made here, and nothing is
//! written out: each function adds to bytes that it is handed.
#![tactic(auto)]

mod json;
mod laws;
mod listing;
mod map;
mod map_json;
mod members;
mod predicates;
mod told;

pub use json::write_json;
pub use laws::{map_is_one, totals_are_one};
pub use listing::{write_listing, write_size};
pub use map::{joined, write_map, write_totals};
pub use map_json::{write_map_json, write_totals_json};
pub use predicates::is_true;
pub use told::{Entry, Found};
