//! For which histories a machine stands, and that each event which may come goes on to the history
//! with it. Definitions and laws; no code.
#![tactic(auto)]

mod laws_of_standing;

pub use laws_of_standing::{
    closing_is_right, created_stands, standing_calls, standing_goes_on, standing_is_right,
};
