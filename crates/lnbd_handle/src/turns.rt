//! One turn: what is done with the record at the front of the bytes that arrived, at each phase.

ghost use Rattle.std.specs.Prelude.{◌≡◌, ◌≢◌, ◌≤◌, if◌then◌else◌, true, false, length};
ghost use Rattle.std.specs.Option.{option_map};
ghost use Rattle.lnbd_records.specs.Flags.{flag_no_zeroes};
ghost use Rattle.lnbd_records.specs.Numbers.{number_at};
ghost use Rattle.lnbd_history.specs.declared.kinds.Phase.TheVariants.{Greeting, AskedByName, Ready};
ghost use Rattle.lnbd_history.specs.declared.kinds.Stage.TheVariants.{Open};
ghost use Rattle.lnbd_history.specs.Arrivals.{has_bit};
ghost use Rattle.lnbd_machine.specs.Machine.{waited};
ghost use Rattle.lnbd_structured.specs.Waiting.{seen_waiting};
ghost use Rattle.lnbd_handle.specs.Seen.{IsSound, state_of};
ghost use Rattle.lnbd_handle.specs.Announcing.{is_speaking};
ghost use Rattle.lnbd_handle.specs.Turns.{AreAgreed, TurnMeans, takes_options};
ghost use Rattle.lnbd_handle.specs.Room.{IsCalm, IsQuiet};
ghost use Rattle.lnbd_arrivals.specs.declared.replies.Replies.TheVariants.{Simple};
ghost use Rattle.lnbd_arrivals.specs.Frames.{IsChunk, replies_by};

use crate::aborting::turn_aborting;
use crate::connection::Connection;
use crate::deaths::die;
use crate::greet::{greet, take_reply};
use crate::kinds::Turn;
use lnbd_arrivals::{Chunk, Replies, Seen as Frame, cookie_in, look_frame};
use lnbd_callbacks::Caller;
use lnbd_commands::Waiting;
use lnbd_history::{Phase, Stage};
use lnbd_model::Cause;
use lnbd_negotiate::{Greeted, Seen, TalkFault, look, look_by_name, look_hello};
use lnbd_records::names::{
    EXPORT_NAME_REPLY_SIZE, FLAG_NO_ZEROES, HELLO_SIZE, OPTION_REPLY_HEAD_SIZE, PADDING_SIZE,
};

fn turn_hello<K: Caller>(connection: &mut Connection<K>, world: &mut K::World, rest: &[u8]) -> Turn
    requires sound { IsSound connection.old }
    requires open { connection.old.stage ≡ Open }
    requires greeting { connection.old.talk.phase ≡ Greeting }
    ensures means { TurnMeans K.steps connection.old world.old rest.now result connection.new world.new }
    ensures sound { IsSound connection.new }
{
    match look_hello(rest) {
        Greeted::Nothing => Turn::Nothing(None),
        Greeted::Broken(breach) => {
            die(connection, world, Cause::Broke(breach));
            Turn::All
        }
        Greeted::Whole(flags) => match greet(connection, flags) {
            Ok(()) => Turn::Took(HELLO_SIZE),
            Err(TalkFault::NoMemory) => Turn::Short,
            Err(TalkFault::Cause(cause)) => {
                die(connection, world, cause);
                Turn::All
            }
        },
    }
}

fn turn_option<K: Caller>(connection: &mut Connection<K>, world: &mut K::World, rest: &[u8]) -> Turn
    requires sound { IsSound connection.old }
    requires open { connection.old.stage ≡ Open }
    requires options { takes_options connection.old.talk.phase ≡ true }
    ensures means { TurnMeans K.steps connection.old world.old rest.now result connection.new world.new }
    ensures sound { IsSound connection.new }
{
    match look(connection.talk.phase(), rest) {
        Seen::Nothing => Turn::Nothing(None),
        Seen::Broken(breach) => {
            die(connection, world, Cause::Broke(breach));
            Turn::All
        }
        Seen::Whole(head) => {
            let size = head.length as usize;
            let (_, body) = rest.split_at(OPTION_REPLY_HEAD_SIZE);
            let (body, _) = body.split_at(size);
            match take_reply(connection, &head, body) {
                Ok(()) => Turn::Took(OPTION_REPLY_HEAD_SIZE + size),
                Err(TalkFault::NoMemory) => Turn::Short,
                Err(TalkFault::Cause(cause)) => {
                    die(connection, world, cause);
                    Turn::All
                }
            }
        }
    }
}

/// Whether the server's handshake flags offer NO_ZEROES.
pub(crate) fn has_no_zeroes(flags: u16) -> bool
    ensures { result ≡ has_bit flag_no_zeroes flags }
{
    flags & FLAG_NO_ZEROES != 0
}

/// How many bytes the reply to EXPORT_NAME has, which `look_by_name` waits for.
pub(crate) fn by_name_size(no_zeroes: bool) -> usize
    ensures { result ≡ (if no_zeroes then 10 else 134) }
{
    if no_zeroes {
        EXPORT_NAME_REPLY_SIZE
    } else {
        EXPORT_NAME_REPLY_SIZE + PADDING_SIZE
    }
}

fn turn_by_name<K: Caller>(
    connection: &mut Connection<K>,
    world: &mut K::World,
    rest: &[u8],
) -> Turn
    requires sound { IsSound connection.old }
    requires open { connection.old.stage ≡ Open }
    requires by_name { connection.old.talk.phase ≡ AskedByName }
    ensures means { TurnMeans K.steps connection.old world.old rest.now result connection.new world.new }
    ensures sound { IsSound connection.new }
{
    let no_zeroes = has_no_zeroes(connection.flags);
    match look_by_name(no_zeroes, rest) {
        None => Turn::Nothing(None),
        Some((size, flags)) => match connection.talk.export_told(size, flags) {
            Ok(_) => Turn::Took(by_name_size(no_zeroes)),
            Err(TalkFault::NoMemory) => Turn::Short,
            Err(TalkFault::Cause(cause)) => {
                die(connection, world, cause);
                Turn::All
            }
        },
    }
}

/// What is known of the command that waits for this cookie: it is wholly written and in flight.
fn waiting_for<K>(connection: &mut Connection<K>, cookie: u64) -> Option<Waiting>
    ensures waits { option_map seen_waiting result ≡ waited (state_of connection.old) cookie }
    ensures unchanged { connection.new ≡ connection.old }
{
    if cookie <= connection.written && connection.commands.find(cookie) {
        connection.commands.waiting(cookie)
    } else {
        None
    }
}

/// The same for the cookie of a reply, where its head is whole.
fn waiting_at<K>(connection: &mut Connection<K>, rest: &[u8]) -> Option<Waiting>
    ensures waits { 16 ≤ length rest.now → waited (state_of connection.old) (number_at 8 8 rest.now) ≡ option_map seen_waiting result }
    ensures unchanged { connection.new ≡ connection.old }
{
    match cookie_in(rest) {
        Some(cookie) => waiting_for(connection, cookie),
        None => None,
    }
}

/// How the server replies to commands, by what is agreed.
pub(crate) fn replies_of<K>(connection: &Connection<K>) -> Replies
    ensures agreed { AreAgreed connection.now result }
    ensures simple { connection.now.talk.structured ≡ false → connection.now.talk.extended ≡ false → result ≡ Simple }
    ensures is { result ≡ replies_by connection.now.talk.structured connection.now.talk.extended }
{
    Replies::agreed(connection.talk.structured(), connection.talk.extended())
}

/// Files the chunk that begins these bytes. For want of memory nothing has changed.
fn turn_chunk<K: Caller>(
    connection: &mut Connection<K>,
    world: &mut K::World,
    replies: Replies,
    chunk: &Chunk,
    rest: &[u8],
) -> Turn
    requires sound { IsSound connection.old }
    requires speaking { is_speaking connection.old.stage ≡ true }
    requires ready { connection.old.talk.phase ≡ Ready }
    requires agreed { AreAgreed connection.old replies }
    requires whole { IsChunk replies (waited (state_of connection.old)) rest.now chunk.now }
    ensures means { TurnMeans K.steps connection.old world.old rest.now result connection.new world.new }
    ensures sound { IsSound connection.new }
{
    let payload = chunk.payload(rest);
    let Ok(entries) = chunk.entries(connection.alloc, payload) else {
        return Turn::Short;
    };
    let told = chunk.told(payload, &entries);
    match connection.commands.chunk(
        world,
        chunk.cookie(),
        told,
        chunk.is_last(),
        connection.talk.contexts(),
    ) {
        Ok(()) => Turn::Took(chunk.size),
        Err(_) => Turn::Short,
    }
}

/// Takes the reply at the front of the bytes, whose command is known, if it waits.
fn turn_reply<K: Caller>(
    connection: &mut Connection<K>,
    world: &mut K::World,
    waiting: Option<Waiting>,
    rest: &[u8],
) -> Turn
    requires sound { IsSound connection.old }
    requires speaking { is_speaking connection.old.stage ≡ true }
    requires ready { connection.old.talk.phase ≡ Ready }
    requires waits { 16 ≤ length rest.now → waited (state_of connection.old) (number_at 8 8 rest.now) ≡ option_map seen_waiting waiting }
    ensures means { TurnMeans K.steps connection.old world.old rest.now result connection.new world.new }
    ensures sound { IsSound connection.new }
    ensures memory { IsQuiet (state_of connection.old) → result ≢ Turn.Short }
{
    let replies = replies_of(connection);
    match look_frame(replies, waiting, rest) {
        Frame::Nothing => Turn::Nothing(None),
        Frame::Begun(announced) => Turn::Nothing(Some(announced)),
        Frame::Broken(breach) => {
            die(connection, world, Cause::Broke(breach));
            Turn::All
        }
        Frame::Whole {
            cookie,
            error,
            size,
        } => {
            let (_, data) = rest.split_at(16);
            let (data, _) = data.split_at(size);
            match connection.commands.reply(world, cookie, error, data) {
                Ok(()) => Turn::Took(16 + size),
                Err(_) => Turn::Short,
            }
        }
        Frame::Chunk(chunk) => turn_chunk(connection, world, replies, &chunk, rest),
    }
}

fn turn_frame<K: Caller>(connection: &mut Connection<K>, world: &mut K::World, rest: &[u8]) -> Turn
    requires sound { IsSound connection.old }
    requires speaking { is_speaking connection.old.stage ≡ true }
    requires ready { connection.old.talk.phase ≡ Ready }
    ensures means { TurnMeans K.steps connection.old world.old rest.now result connection.new world.new }
    ensures sound { IsSound connection.new }
    ensures memory { IsQuiet (state_of connection.old) → result ≢ Turn.Short }
{
    let waiting = waiting_at(connection, rest);
    turn_reply(connection, world, waiting, rest)
}

fn turn_open<K: Caller>(connection: &mut Connection<K>, world: &mut K::World, rest: &[u8]) -> Turn
    requires sound { IsSound connection.old }
    requires open { connection.old.stage ≡ Open }
    ensures means { TurnMeans K.steps connection.old world.old rest.now result connection.new world.new }
    ensures sound { IsSound connection.new }
    ensures memory { IsQuiet (state_of connection.old) → result ≢ Turn.Short }
{
    match connection.talk.phase() {
        Phase::Greeting => turn_hello(connection, world, rest),
        Phase::Asked(_) => turn_option(connection, world, rest),
        Phase::OptMode => turn_option(connection, world, rest),
        Phase::AskedByName => turn_by_name(connection, world, rest),
        Phase::Ready => turn_frame(connection, world, rest),
        Phase::Refused(_) => Turn::All,
    }
}

/// Takes the record at the front of the bytes.
pub(crate) fn turn<K: Caller>(
    connection: &mut Connection<K>,
    world: &mut K::World,
    rest: &[u8],
) -> Turn
    requires { IsSound connection.old }
    ensures means { TurnMeans K.steps connection.old world.old rest.now result connection.new world.new }
    ensures sound { IsSound connection.new }
    ensures memory { IsCalm (state_of connection.old) → result ≢ Turn.Short }
{
    match connection.stage {
        Stage::Open => turn_open(connection, world, rest),
        Stage::Disconnecting => turn_frame(connection, world, rest),
        Stage::Aborting => turn_aborting(connection, world, rest),
        Stage::Created => Turn::All,
        Stage::Closed => Turn::All,
        Stage::Dead(_) => Turn::All,
    }
}
