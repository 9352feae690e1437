//! How far a session is, and what it may agree on.

/// How far a session is with its client.
#[derive(Clone, Copy, Debug, PartialEq, Eq)]
pub enum Stage {
    /// The client's flags are to come.
    Greeting,
    /// Options are to come.
    Haggling,
    /// Requests are to come.
    Serving,
    /// DISC or ABORT was read.
    Ended,
    /// The bytes were no client's.
    Strayed,
}

/// What a server agrees to where it is asked.
#[derive(Clone, Copy, Debug, PartialEq, Eq)]
pub struct Offers {
    pub structured: bool,
    pub extended: bool,
}
