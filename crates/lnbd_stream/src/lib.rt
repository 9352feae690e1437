//! How a stream of bytes shows one thing after another: definitions and laws, for any grammar and for whatever is known.
//!
//! `specs/Stream` has the definitions, `specs/Grammar` the words in which grammars are written, `specs/Laws` the conditions and
//! the laws. Each law is the contract of a function here, so that the check asks for its proof; crates above cite the lemmas of
//! `proofs/`. No byte is parsed here, and nothing of the protocol is known.
#![tactic(auto)]

mod laws;

pub use laws::{
    Fact, SameAs, alike_go_on_alike, any_cut_is_what_is_taken, facts_last, first_bytes_decide,
    held_bytes_show_nothing, no_byte_is_lost, parts_are_read, passed_one_by_one, places_are_steady,
    size_makes_a_front, the_trace_cuts, two_parts_feed_as_one, what_is_shown_has_a_front,
    what_is_written_is_read, words_fit, words_stay,
};
