//! Programs that are started and waited for: the trait of the outside, and a list in memory that stands in for it. The trait holds
//! the rules; no program of the system is started here, and nothing of NBD's own stands here.
#![tactic(auto)]

mod deed;
mod list_spawner;
mod spawner;

pub use deed::Deed;
pub use list_spawner::{ListSpawner, Ran};
pub use spawner::{SpawnFailed, Spawner, Waited};
