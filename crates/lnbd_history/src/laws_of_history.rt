//! Laws of what histories mean. Each is the contract of a function that does nothing.

ghost use Rattle.lnbd_history.specs.Laws.{CutsDoNotMatter, CallbacksAreCalledOnce, CloseFreesAll};
ghost use Rattle.lnbd_history.specs.Filled.{HelloIsWhole, OptionReplyIsWhole, ExportIsAwaited, ExportIsTold, ExportIsTooBig, ContentIsShown, PayloadIsFilled};
ghost use Rattle.lnbd_history.specs.Talk.{ComesToAgreed};

/// Negotiation that keeps no list, taken one turn at a time, comes to what all turns agree on.
#[tactic(auto, using(crate::proofs::Agree::comes_to_agreed))]
pub fn turns_come_to_what_is_agreed()
    ensures { ComesToAgreed }
{}

/// How bytes are cut into arrivals changes nothing.
pub fn cuts_do_not_matter<K>()
    ensures { CutsDoNotMatter K }
{}

/// Each callback is completed at most once and freed at most once, and nothing is noted of it after
/// its free.
pub fn callbacks_are_called_once<K>()
    ensures { CallbacksAreCalledOnce K }
{}

/// After a close each callback that was admitted was freed exactly once.
pub fn close_frees_all<K>()
    ensures { CloseFreesAll K }
{}

/// A hello, and a reply to an option, that is told is a whole record at the front of the bytes.
#[tactic(auto, using(crate::proofs::Whole::hello_is_whole, crate::proofs::Whole::option_reply_is_whole))]
pub fn handshake_is_whole()
    ensures hello { HelloIsWhole }
    ensures reply { OptionReplyIsWhole }
{}

/// The reply to EXPORT_NAME is taken when it is there whole, and tells the size and the flags that its bytes spell.
pub fn export_name_reply_is_filled()
    ensures awaited { ExportIsAwaited }
    ensures told { ExportIsTold }
    ensures too_big { ExportIsTooBig }
{}

/// The content of a reply is what stands behind its head, as many bytes as the read asked, and the read's
/// buffer holds just these.
pub fn payload_is_filled<K>()
    ensures shown { ContentIsShown }
    ensures filled { PayloadIsFilled K }
{}
