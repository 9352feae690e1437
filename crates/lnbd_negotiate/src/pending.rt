//! What the replies of an answer tell that isn't ended.

ghost use Rattle.std.specs.Prelude.{◌≡◌, OnOk, OnErr};
ghost use Rattle.lnbd_history.specs.Talk.{pending_with, nothing};
ghost use Rattle.lnbd_negotiate.specs.Told.{pending_of, told_of};

use crate::contexts::add_context;
use crate::told::{Size, Told};
use lnbd_model::{Blocks, Contexts, Listing, NoMemory, Text};
use std::alloc::Global;

#[derive(Debug, Drop)]
pub struct Pending {
    pub count: u32,
    pub size: Option<Size>,
    pub blocks: Option<Blocks>,
    pub name: Option<Text>,
    pub description: Option<Text>,
    pub servers: Listing,
    pub contexts: Contexts,
}

/// Nothing is told yet.
pub fn nothing(alloc: Global) -> Pending
    ensures { pending_of result ≡ nothing }
{
    Pending {
        count: 0,
        size: None,
        blocks: None,
        name: None,
        description: None,
        servers: Listing::new(alloc),
        contexts: Contexts::new(alloc),
    }
}

impl Pending {
    /// One reply more that doesn't end the answer. Each is judged before, so that far fewer come than
    /// can be counted.
    pub fn note(&mut self, told: Told) -> Result<(), NoMemory>
        ensures ok { OnOk result (pending_of self.new ≡ pending_with (told_of told) (pending_of self.old)) }
        ensures err { OnErr result (self.new ≡ self.old) }
    {
        let Some(count) = self.count.checked_add(1) else {
            return Err(NoMemory);
        };
        match told {
            Told::Ack => {}
            Told::Error(_) => {}
            Told::Passed => {}
            Told::Server(listed) => self.servers.push(listed)?,
            Told::Context(context) => add_context(&mut self.contexts, context)?,
            Told::Export(size) => self.size = Some(size),
            Told::Name(name) => self.name = Some(name),
            Told::Description(text) => self.description = Some(text),
            Told::Blocks(blocks) => self.blocks = Some(blocks),
        }
        self.count = count;
        Ok(())
    }
}
