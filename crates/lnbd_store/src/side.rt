//! Where a copy comes from, or goes to.

use lnbd_model::{Place, Text};

/// A side of a copy: an export, or a file at a path.
#[derive(Debug, Drop)]
pub enum Side {
    Nbd(Place),
    File(Text),
}
