//! Where an export is found: an address and a name.

use crate::text::Text;

/// The address of a server.
#[derive(Debug, Drop)]
pub enum Target {
    /// A host and a TCP port.
    Tcp { host: Text, port: u16 },
    /// A Unix domain socket.
    Unix { path: Text },
}

/// An export of a server.
#[derive(Debug, Drop)]
pub struct Place {
    pub to: Target,
    /// The export's name.
    pub name: Text,
}
