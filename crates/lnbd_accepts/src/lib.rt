//! What a server may count on: whatever it may lawfully send is told and is no breach, and how its
//! bytes are cut changes nothing of what follows. And that lists of answers in events needn't be
//! other than fitting ones. Definitions and laws on which no other crate rests; no code.
#![tactic(auto)]

mod laws;

pub use laws::{
    cuts_change_nothing_later, fitting_answers_suffice, lawful_replies_are_filed,
    lawful_replies_are_told, lawful_talks_are_told,
};
