//! A call of a spawner with its arguments and its answer, as lists of calls hold it. Nothing is started here.

use crate::spawner::Waited;
use lnbd_model::{Text, Texts};

/// A call of a spawner.
#[derive(Debug, Drop)]
pub enum Deed {
    /// A start, and the number that it answered, if any.
    Start {
        program: Text,
        words: Texts,
        child: Option<u32>,
    },
    /// A wait, and what it answered.
    Wait {
        child: u32,
        answer: Waited,
    },
}
