//! Meta contexts that are told one after another.

ghost use Rattle.std.specs.Prelude.{◌≡◌, OnOk, OnErr};
ghost use Rattle.lnbd_history.specs.Agreement.{clashes, adding};

use lnbd_model::{Context, Contexts, NoMemory};

/// Whether one of the contexts has the id or the name.
fn clashes(contexts: &Contexts, context: &Context) -> bool
    ensures { result ≡ clashes context.now contexts.now }
{
    for other in contexts.as_slice() {
        if context.id == other.id || context.name.as_str() == other.name.as_str() {
            return true;
        }
    }
    false
}

/// Adds a context, unless its id or its name is there.
pub fn add_context(contexts: &mut Contexts, context: Context) -> Result<(), NoMemory>
    ensures ok { OnOk result (contexts.new ≡ adding context contexts.old) }
    ensures err { OnErr result (contexts.new ≡ contexts.old) }
{
    if !clashes(contexts, &context) {
        contexts.push(context)?;
    }
    Ok(())
}
