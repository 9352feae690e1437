//! One run of a benchmark: the words that it has still to take, and the numbers that it has told. No benchmark's own words
//! stand here.

use anyhow::{Context, Result};
use std::alloc::Global;
use std::env::Args;

/// One run of a benchmark.
#[derive(Drop)]
pub struct Played {
    words: Args,
    told: Vec<u64>,
    alloc: Global,
}

impl Played {
    pub fn new(alloc: Global, words: Args) -> Played {
        Played {
            words,
            told: Vec::new(alloc),
            alloc,
        }
    }

    pub fn alloc(&self) -> Global {
        self.alloc
    }

    /// How many words are left.
    pub fn left(&self) -> usize {
        self.words.len()
    }

    /// The next word.
    pub fn word(&mut self) -> Result<String> {
        self.words.next().context("a word is missing")
    }

    /// The next word, a number.
    pub fn number(&mut self) -> Result<u32> {
        let word = self.words.next().context("a number is missing")?;
        Ok(word.as_str().parse::<u32>()?)
    }

    /// Tells what the work came to.
    pub fn tell(&mut self, number: u64) -> Result<()> {
        self.told.push(number)?;
        Ok(())
    }

    /// All that was told.
    pub fn told(&self) -> &[u64] {
        self.told.as_slice()
    }
}
