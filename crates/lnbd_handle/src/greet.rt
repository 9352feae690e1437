//! The turns of negotiation that change a connection: the server's hello, an option reply, and the reply
//! to EXPORT_NAME. For want of memory none of them changes anything.

ghost use Rattle.std.specs.Prelude.{◌≡◌, ◌<◌, ◌++◌, ◌∷◌, [], ℕ, List, Bool, true, false, None, Some, OnOk, OnErr, IfOk, IfErr, map, length};
ghost use Rattle.std.specs.List.{concat};
ghost use Rattle.lnbd_history.specs.declared.kinds.Phase.{Phase};
ghost use Rattle.lnbd_history.specs.declared.kinds.Phase.TheVariants.{Greeting, AskedByName};
ghost use Rattle.lnbd_history.specs.declared.kinds.Stage.TheVariants.{Open};
ghost use Rattle.lnbd_history.specs.Arrivals.{reply_verdict};
ghost use Rattle.lnbd_history.specs.Outgoing.{client_flags, plain, request_at};
ghost use Rattle.lnbd_machine.specs.Machine.{greeted, sight};
ghost use Rattle.lnbd_negotiate.specs.Reading.{broken_by};
ghost use Rattle.lnbd_outgoing.specs.Pieces.{Writes};
ghost use Rattle.lnbd_outgoing.specs.Queue.{waits, AllFit};
ghost use Rattle.lnbd_handle.specs.Greets.{Greets, Replies};
ghost use Rattle.lnbd_handle.specs.Seen.{AreAhead, IsSound, state_of, ends_in};

use crate::connection::Connection;
use lnbd_model::{Bytes, NoMemory};
use lnbd_negotiate::{TalkFault, client_flags};
use lnbd_options::OptionHead;
use lnbd_outgoing::{Piece, Queue};
use std::alloc::Global;

/// Queues a request, unless there is none.
pub(crate) fn push_request(queue: &mut Queue, request: Vec<u8>)
    requires open { queue.old.ended ≡ false }
    requires room { 0 < queue.old.room }
    ensures waits { (writes : Writes) (phase : Phase) (name : List ℕ) (wanted : List (List ℕ)) → request.items ≡ concat (request_at phase name wanted)
        → waits writes queue.new ≡ waits writes queue.old ++ map plain (request_at phase name wanted) }
    ensures fits { (writes : Writes) → AllFit writes queue.old.pieces → AllFit writes queue.new.pieces }
    ensures ahead { (flies : ℕ → Bool) (written : ℕ) → AreAhead flies written queue.old.pieces → AreAhead flies written queue.new.pieces }
    ensures ended { queue.new.ended ≡ false }
    ensures ends { (writes : Writes) → ends_in (waits writes queue.new) ≡ ends_in (waits writes queue.old) }
{
    if !request.is_empty() {
        queue.push(Piece::Text(Bytes::from_vec(request)));
    }
}

/// The client's flags, which answer these handshake flags.
fn flags_text(alloc: Global, flags: u16) -> Result<Bytes, NoMemory>
    ensures { IfOk result (λ bytes. bytes ≡ client_flags flags) }
{
    Ok(Bytes::from_vec(Vec::from_slice(alloc, &client_flags(flags))?))
}

/// Takes the server's hello with these handshake flags.
pub(crate) fn greet<K>(connection: &mut Connection<K>, flags: u16) -> Result<(), TalkFault>
    requires sound { IsSound connection.old }
    requires open { connection.old.stage ≡ Open }
    requires greeting { connection.old.talk.phase ≡ Greeting }
    ensures greets { Greets (state_of connection.old) flags result (state_of connection.new) }
    ensures sound { IsSound connection.new }
{
    connection.queue.reserve(2)?;
    let head = flags_text(connection.alloc, flags)?;
    let mut request = Vec::new(connection.alloc);
    connection.talk.hello(flags, &mut request)?;
    connection.flags = flags;
    connection.queue.push(Piece::Text(head));
    push_request(&mut connection.queue, request);
    Ok(())
}

/// Takes a whole option reply, whose head breaks nothing.
pub(crate) fn take_reply<K>(
    connection: &mut Connection<K>,
    head: &OptionHead,
    body: &[u8],
) -> Result<(), TalkFault>
    requires sound { IsSound connection.old }
    requires open { connection.old.stage ≡ Open }
    requires seen { broken_by connection.old.talk.phase head.now ≡ None }
    ensures replies { Replies (state_of connection.old) (reply_verdict (sight (state_of connection.old)) head.now.option head.now.kind head.now.length body.now) result (state_of connection.new) }
    ensures sound { IsSound connection.new }
{
    connection.queue.reserve(1)?;
    let mut request = Vec::new(connection.alloc);
    match connection.talk.apply_seen(head, body, &mut request) {
        Err(TalkFault::NoMemory) => Err(TalkFault::NoMemory),
        Err(TalkFault::Cause(cause)) => {
            push_request(&mut connection.queue, request);
            Err(TalkFault::Cause(cause))
        }
        Ok(_) => {
            push_request(&mut connection.queue, request);
            Ok(())
        }
    }
}
