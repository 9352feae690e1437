//! Copies of what was told, which a handle owns.

ghost use Rattle.std.specs.Prelude.{◌≡◌, IfOk, Some, map};
ghost use Rattle.std.specs.Option.{option_copied};

use lnbd_model::{Context, Contexts, ExportInfo, NoMemory, Place, Target, Text};
use std::alloc::Global;

fn copy_text(alloc: Global, text: Option<&Text>) -> Result<Option<Text>, NoMemory>
    ensures { IfOk result (λ copy. copy ≡ option_copied text.entry) }
{
    match text {
        Some(text) => Ok(Some(text.try_clone(alloc)?)),
        None => Ok(None),
    }
}

fn copy_contexts(alloc: Global, contexts: &Contexts) -> Result<Contexts, NoMemory>
    ensures { IfOk result (λ copy. copy ≡ contexts.now) }
{
    let mut copy = Contexts::new(alloc);
    'contexts: for context in contexts.as_slice() {
        let name = context.name.try_clone(alloc)?;
        copy.push(Context {
            id: context.id,
            name,
        })?;
    }
    Ok(copy)
}

/// The same information again.
pub(crate) fn copy_info(alloc: Global, info: &ExportInfo) -> Result<ExportInfo, NoMemory>
    ensures { IfOk result (λ copy. copy ≡ info.now) }
{
    Ok(ExportInfo {
        size: info.size,
        flags: info.flags,
        blocks: info.blocks,
        name: copy_text(alloc, info.name.as_ref())?,
        description: copy_text(alloc, info.description.as_ref())?,
        contexts: copy_contexts(alloc, &info.contexts)?,
        structured: info.structured,
        extended: info.extended,
    })
}

fn copy_target(alloc: Global, target: &Target) -> Result<Target, NoMemory>
    ensures { IfOk result (λ copy. copy ≡ target.now) }
{
    match target {
        Target::Tcp { host, port } => Ok(Target::Tcp {
            host: host.try_clone(alloc)?,
            port: *port,
        }),
        Target::Unix { path } => Ok(Target::Unix {
            path: path.try_clone(alloc)?,
        }),
    }
}

/// The same place again.
pub(crate) fn copy_place(alloc: Global, place: &Place) -> Result<Place, NoMemory>
    ensures { IfOk result (λ copy. copy ≡ place.now) }
{
    Ok(Place {
        to: copy_target(alloc, &place.to)?,
        name: place.name.try_clone(alloc)?,
    })
}
