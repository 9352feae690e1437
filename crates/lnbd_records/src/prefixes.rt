//! No record is the beginning of another of its kind.

ghost use Rattle.std.specs.Prelude.{◌≡◌, ◌++◌, [], List, ℕ};
ghost use Rattle.lnbd_records.specs.Handshake.{IsHello, IsClientFlags, IsOptionRequest, IsOptionReply};

/// No hello, client flags, option request or option reply is a proper prefix of another of its kind.
pub fn no_proper_prefix()
    ensures hello { (one other rest : List ℕ) → IsHello one → IsHello other → other ≡ one ++ rest → rest ≡ [] }
    ensures client_flags { (one other rest : List ℕ) → IsClientFlags one → IsClientFlags other → other ≡ one ++ rest → rest ≡ [] }
    ensures option_request { (one other rest : List ℕ) → IsOptionRequest one → IsOptionRequest other
        → other ≡ one ++ rest → rest ≡ [] }
    ensures option_reply { (one other rest : List ℕ) → IsOptionReply one → IsOptionReply other
        → other ≡ one ++ rest → rest ≡ [] }
{}
