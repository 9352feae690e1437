//! Scripts of calls: their text, and how one is played over handles and the wires. Which tool plays them and what its
//! status is are no matter here.
#![tactic(auto)]

mod answer;
mod event;
mod issuing;
mod keeper;
mod laws;
mod place;
mod playing;
mod reach;
mod rounds;
mod session;
mod sessions;
mod spare;
mod texts;
mod told;
mod turns;

pub use event::{Event, PlayFault};
pub use laws::origins_are_told;
pub use lnbd_lines::{Line, Script, ScriptFault, parse};
pub use lnbd_model::Broken;
pub use playing::play;
