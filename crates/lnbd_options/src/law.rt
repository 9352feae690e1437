//! Laws of option requests and replies. Each function says one and does nothing.

ghost use Rattle.std.specs.Prelude.{◌≡◌, ◌<◌, ◌^◌, ◌++◌, ◌∷◌, [], List, ℕ, length, Some, All};
ghost use Rattle.lnbd_records.specs.Numbers.{row, AllFit};
ghost use Rattle.lnbd_records.specs.Fronts.{IsFront};
ghost use Rattle.lnbd_records.specs.Handshake.{option_reply_magic};
ghost use Rattle.lnbd_records.specs.Options.{opt_go, opt_set_meta_context};
ghost use Rattle.lnbd_records.specs.Requests.{asked_information, info_request, meta_request, asked_of, Info, Meta};
ghost use Rattle.lnbd_options.specs.declared.head.OptionHead.{OptionHead};
ghost use Rattle.lnbd_options.specs.Heads.{reply_fields, front_of};

use crate::head::Read64;

/// A head of an option reply that was put is read again, whatever follows it.
pub fn head_read_again()
    ensures { (head : OptionHead) (rest : List ℕ) → AllFit (reply_fields head)
        → IsFront reply_fields 8 option_reply_magic 20 (row (reply_fields head) ++ rest) (front_of (Read64.Value head)) }
{}

/// The bodies that a client puts ask what it wanted, where a server reads them.
pub fn requests_read_again()
    ensures go { (name : List ℕ) → length name < 2 ^ 32
        → asked_of opt_go (info_request name asked_information) ≡ Some (Info name asked_information) }
    ensures meta { (name : List ℕ) (queries : List (List ℕ)) → length name < 2 ^ 32 → length queries < 2 ^ 32
        → All (λ query. length query < 2 ^ 32) queries
        → asked_of opt_set_meta_context (meta_request name queries) ≡ Some (Meta name queries) }
{}
