//! Replies whose data were held apart are filed, once the data are all there. Whether they are is not known here.

ghost use Rattle.std.specs.Prelude.{◌≡◌, ◌≤◌, true, false, take, vec_len, length, IfErr, IfOk, OnErr, OnOk};
ghost use Rattle.lnbd_keyed.specs.Keyed.{value_at};
ghost use Rattle.lnbd_commands.specs.Commands.{waiting_at};
ghost use Rattle.lnbd_commands.specs.Flights.{has_first};
ghost use Rattle.lnbd_commands.specs.Rows.{flight_of_row, is_read_row};
ghost use Rattle.lnbd_arrivals.specs.Frames.{is_chunk};
ghost use Rattle.lnbd_handle.specs.Filing.{MayFile, TakesData};

use lnbd_arrivals::{Announced, Carrier};
use lnbd_callbacks::Caller;
use lnbd_commands::{Commands, Told};
use lnbd_model::{Contexts, NoMemory};
use std::alloc::Global;
use std::mem::replace;

/// Files the reply whose data begin this buffer. Where they fill it the buffer may become the command's own, and one as long takes its place;
/// else they are copied. A simple reply wants memory for the note of a chunk callback alone; for want of memory nothing has changed.
pub(crate) fn file_data<K: Caller>(
    commands: &mut Commands<K>,
    contexts: &Contexts,
    alloc: Global,
    buffer: &mut Vec<u8>,
    world: &mut K::World,
    announced: Announced,
) -> Result<(), NoMemory>
    requires there { announced.size ≤ vec_len buffer.old }
    requires may { MayFile (waiting_at announced.cookie commands.old) announced (take announced.size buffer.old.items) }
    ensures ok { OnOk result (TakesData contexts.now K.steps announced (take announced.size buffer.old.items) commands.old commands.new world.old world.new) }
    ensures needed { is_chunk announced.carrier ≡ false → OnErr result (has_first (flight_of_row (value_at announced.cookie commands.old.rows)) ≡ true) }
    ensures read { is_chunk announced.carrier ≡ false → OnErr result (is_read_row (value_at announced.cookie commands.old.rows) ≡ true) }
    ensures err { OnErr result (commands.new ≡ record commands.old { room = commands.new.room }) }
    ensures err_buffer { OnErr result (buffer.new.items ≡ buffer.old.items) }
    ensures err_world { OnErr result (world.new ≡ world.old) }
    ensures room { vec_len buffer.new ≡ vec_len buffer.old }
{
    if announced.size < buffer.len() {
        let (data, _) = buffer.split_at(announced.size);
        return file_copied(commands, contexts, world, announced, data);
    }
    let data = replace(buffer, Vec::new(alloc));
    match file_filled(commands, contexts, world, announced, data) {
        Ok(spare) => {
            *buffer = spare;
            Ok(())
        }
        Err(data) => {
            *buffer = data;
            Err(NoMemory)
        }
    }
}

/// Files the reply with these data, which are copied.
fn file_copied<K: Caller>(
    commands: &mut Commands<K>,
    contexts: &Contexts,
    world: &mut K::World,
    announced: Announced,
    content: &[u8],
) -> Result<(), NoMemory>
    requires { MayFile (waiting_at announced.cookie commands.old) announced content.now }
    ensures ok { OnOk result (TakesData contexts.now K.steps announced content.now commands.old commands.new world.old world.new) }
    ensures needed { is_chunk announced.carrier ≡ false → OnErr result (has_first (flight_of_row (value_at announced.cookie commands.old.rows)) ≡ true) }
    ensures read { is_chunk announced.carrier ≡ false → OnErr result (is_read_row (value_at announced.cookie commands.old.rows) ≡ true) }
    ensures err { OnErr result (commands.new ≡ record commands.old { room = commands.new.room }) }
    ensures err_world { OnErr result (world.new ≡ world.old) }
{
    let Announced { cookie, offset, .. } = announced;
    match announced.carrier {
        Carrier::Reply => commands.reply(world, cookie, 0, content),
        Carrier::Chunk { last } => {
            let told = Told::Data {
                offset,
                bytes: content,
            };
            commands.chunk(world, cookie, told, last, contexts)
        }
    }
}

/// Files the reply with the data of this buffer, which may become the command's own. One as long comes back.
fn file_filled<K: Caller>(
    commands: &mut Commands<K>,
    contexts: &Contexts,
    world: &mut K::World,
    announced: Announced,
    content: Vec<u8>,
) -> Result<Vec<u8>, Vec<u8>>
    requires { MayFile (waiting_at announced.cookie commands.old) announced content.items }
    ensures ok { OnOk result (TakesData contexts.now K.steps announced content.items commands.old commands.new world.old world.new) }
    ensures needed { is_chunk announced.carrier ≡ false → OnErr result (has_first (flight_of_row (value_at announced.cookie commands.old.rows)) ≡ true) }
    ensures read { is_chunk announced.carrier ≡ false → OnErr result (is_read_row (value_at announced.cookie commands.old.rows) ≡ true) }
    ensures spare { IfOk result (λ spare. length spare.items ≡ length content.items) }
    ensures handed_back { IfErr result (λ back. back.items ≡ content.items) }
    ensures err { OnErr result (commands.new ≡ record commands.old { room = commands.new.room }) }
    ensures err_world { OnErr result (world.new ≡ world.old) }
{
    let Announced { cookie, offset, .. } = announced;
    match announced.carrier {
        Carrier::Reply => commands.reply_filled(world, cookie, 0, content),
        Carrier::Chunk { last } => {
            commands.chunk_filled(world, cookie, offset, content, last, contexts)
        }
    }
}
