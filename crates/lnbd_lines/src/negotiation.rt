//! What a line sets before the start, and which options it asks for. How they are spelled stands in `specs/Grammar.antt`.

/// A setting that is on or off.
#[derive(Clone, Copy, Debug, PartialEq, Eq)]
pub enum Switch {
    /// `structured`: whether structured replies are asked for (nbd_set_request_structured_replies(3)).
    Structured,
    /// `extended`: whether extended headers are asked for (NBD protocol, "NBD_OPT_EXTENDED_HEADERS").
    Extended,
    /// `optmode`: whether the caller decides which options come next (nbd_set_opt_mode(3)).
    OptMode,
}

/// An option that is asked for in opt mode.
#[derive(Clone, Copy, Debug, PartialEq, Eq)]
pub enum Opt {
    /// `opt-list` (nbd_opt_list(3)).
    List,
    /// `opt-info` (nbd_opt_info(3)).
    Info,
    /// `opt-meta` (nbd_opt_set_meta_context(3)).
    Meta,
    /// `opt-go` (nbd_opt_go(3)).
    Go,
    /// `opt-abort` (nbd_opt_abort(3)).
    Abort,
}
