//! What a line of a script asks for. How it is spelled stands in `specs/Grammar.antt`.

use crate::command::{Command, Manner};
use crate::negotiation::{Opt, Switch};
use lnbd_model::{Place, Target, Text};

/// One call on the current handle, a question about it, or another handle made current.
#[derive(Debug, Drop)]
pub enum Line {
    /// `handle N`: the lines behind it act on the handle of this number, which is below 16.
    Handle { number: usize },
    /// `connect tcp HOST PORT` or `connect unix PATH`: connect, and start the handshake
    /// (nbd_connect_tcp(3), nbd_connect_unix(3)). The host and the path have 1 to 4,096 bytes.
    Connect(Target),
    /// `connect URI`: connect to the server of this address, set its export's name, and start the handshake
    /// (nbd_connect_uri(3)).
    ConnectUri(Place),
    /// A command: issue it, with callbacks that answer so.
    Command { manner: Manner, command: Command },
    /// `settle`: take turns until nothing is in flight and nothing waits to go out.
    Settle,
    /// `log`: show the notes.
    Log,
    /// `heard`: show what callbacks of this handle heard since the last time.
    Heard,
    /// `clear-log`: forget the notes.
    ClearLog,
    /// `done C`: whether the command of this cookie is completed (nbd_aio_command_completed(3)).
    Done { cookie: u64 },
    /// `peek`: the cookie of a command that is completed (nbd_aio_peek_command_completed(3)).
    Peek,
    /// `in-flight`: how many commands are in flight (nbd_aio_in_flight(3)).
    InFlight,
    /// `direction`: what the handle waits for (nbd_aio_get_direction(3)).
    Direction,
    /// `state`: the state of the handle.
    State,
    /// `info`: what the server told of the export.
    Info,
    /// `export TEXT`: set the name of the export, 4,096 bytes at most (nbd_set_export_name(3)).
    Export { name: Text },
    /// `strict N`: set these bits of strict mode (nbd_set_strict_mode(3)).
    Strict { bits: u32 },
    /// `context TEXT`: add a meta context to those that are asked for, 4,096 bytes at most (nbd_add_meta_context(3)).
    Context { name: Text },
    /// `structured on`, `extended off` and so on: set this before the start.
    Switch { switch: Switch, on: bool },
    /// Ask for this option.
    Ask(Opt),
    /// `answer`: what the server answered to the option that was asked last.
    Answer,
    /// `listing`: the exports that the server listed.
    Listing,
    /// `read`: take what the server sent (nbd_aio_notify_read(3)).
    Read,
    /// `write`: send what waits to go out (nbd_aio_notify_write(3)).
    Write,
    /// `disconnect`: issue the disconnection (nbd_aio_disconnect(3)).
    Disconnect,
    /// `close`: close the handle and shut its link.
    Close,
}
