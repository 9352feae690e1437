//! What is served: contents that a number gives, or those of a file. Nobody is served here.

ghost use Rattle.std.specs.Prelude.{◌≡◌, ◌≤◌, ℕ, Err, IfErr, IfOk, Some};
ghost use Rattle.lnbd_store.specs.Shelf.{Shelf};
ghost use Rattle.lnbd_store.specs.declared.serving.Content.TheVariants.{Made};
ghost use Rattle.lnbd_child.specs.Causes.{Because, Lacks, Never, Rose};
ghost use Rattle.lnbd_child.specs.Grown.{Grew};
ghost use Rattle.lnbd_child.specs.Loading.{Begins, Holds, IsFew, IsOfNumber, Loads, NotLoaded, NotLoadedFile, of_file};
ghost use Rattle.lnbd_child.specs.Reading.{HasRead, IsRead};

use crate::fault::RunFault;
use crate::reading::read_whole;
use lnbd_export::{Export, generate};
use lnbd_extents::Ranges;
use lnbd_model::Text;
use lnbd_serve::ServeFault;
use lnbd_store::{Content, Serving, Store};
use std::alloc::Global;

/// The export of a file's bytes, of which no range is told as zero.
#[tactic(auto, using(crate::proofs::LoadLemmas::no_flags, crate::proofs::LoadLemmas::no_zeros))]
fn export_of(alloc: Global, name: Text, content: Vec<u8>, read_only: bool) -> Export
    ensures { result ≡ of_file name content.items read_only }
{
    let zeros = Ranges::new(alloc);
    Export::new(name, Text::empty(alloc), content, zeros, read_only)
}

/// The export of the file at a path.
fn load_file<S: Store>(
    alloc: Global,
    name: Text,
    path: &Text,
    read_only: bool,
    store: &mut S,
) -> Result<Export, RunFault>
    ensures begins { IfOk result (λ start. start ≡ of_file name start.bytes read_only) }
    ensures read { IfOk result (λ start. Grew (S.told store.old) (S.told store.new) (HasRead path.now start.bytes)) }
    ensures held { IfOk result (λ start. IsRead path.now start.bytes (S.shelf store.old) (S.shelf store.new)) }
    ensures unread { IfErr result (λ why. Grew (S.told store.old) (S.told store.new) (NotLoadedFile path.now why)) }
    ensures changed { (n end : ℕ) → result ≡ Err (RunFault.Changed n end) → (now : Shelf) → S.shelf store.new ≡ Some now → ⊥ }
    ensures cause { IfErr result (Because (Unit {0}) ⊥ Lacks (Rose S.faults store.old store.new) Never) }
    ensures later { S.faults store.old ≤ S.faults store.new }
{
    let before = store.faults();
    match read_whole(alloc, path, store) {
        Ok(content) => Ok(export_of(alloc, name, content, read_only)),
        Err(why) => Err(why.fault(before, store.faults())),
    }
}

/// The export that is asked for.
pub(crate) fn load<S: Store>(
    alloc: Global,
    asked: &Serving,
    store: &mut S,
) -> Result<Export, RunFault>
    requires { IsFew asked.now.content }
    ensures begins { IfOk result (λ start. Begins asked.now start) }
    ensures loads { IfOk result (λ start. Grew (S.told store.old) (S.told store.new) (Loads asked.now.content start.bytes)) }
    ensures held { IfOk result (λ start. Holds asked.now.content start.bytes (S.shelf store.old) (S.shelf store.new)) }
    ensures unloaded { IfErr result (λ why. Grew (S.told store.old) (S.told store.new) (NotLoaded asked.now.content why)) }
    ensures untouched { IsOfNumber asked.now.content → store.new ≡ store.old }
    ensures changed { (n end : ℕ) → result ≡ Err (RunFault.Changed n end) → (now : Shelf) → S.shelf store.new ≡ Some now → ⊥ }
    ensures cause { IfErr result (Because (Unit {0}) ⊥ Lacks (Rose S.faults store.old store.new) Never) }
    ensures later { S.faults store.old ≤ S.faults store.new }
{
    let name = match asked.place.name.try_clone(alloc) {
        Ok(name) => name,
        Err(_) => return Err(RunFault::Serve(ServeFault::NoMemory)),
    };
    match &asked.content {
        Content::Made { seed, size } => {
            match generate(alloc, name, *seed, *size, asked.read_only) {
                Ok(export) => Ok(export),
                Err(_) => Err(RunFault::Serve(ServeFault::NoMemory)),
            }
        }
        Content::File(path) => load_file(alloc, name, path, asked.read_only, store),
    }
}
