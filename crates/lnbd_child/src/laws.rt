//! The laws, each as the contract of a function that does nothing.

ghost use Rattle.lnbd_child.specs.Serving.{ServingKeepsLength};

/// However serving ends, the export has as many bytes as it had.
pub fn serving_keeps_length()
    ensures { ServingKeepsLength }
{}
