//! The bodies of options and chunks by their fields, and by what stands where.

ghost use Rattle.std.specs.Prelude.{◌≡◌, ◌↔◌, List, ℕ, Some};
ghost use Rattle.lnbd_records.specs.Numbers.{IsBytes};
ghost use Rattle.lnbd_records.specs.Told.{Told, Body};
ghost use Rattle.lnbd_records.specs.Replies.{are_texts, body_of, Tells};
ghost use Rattle.lnbd_records.specs.Requests.{Asked, asked_of, Asks};
ghost use Rattle.lnbd_records.specs.Transmission.{Payload, IsPayload};

/// A reply's body tells exactly what its fields tell.
#[tactic(auto, using(crate::proofs::ReplyLemmas::told_so, crate::proofs::ReplyLemmas::from_told))]
pub fn replies_tell_their_fields()
    ensures told { (type : ℕ) (bytes : List ℕ) (told : Told) → Tells type bytes told
        → body_of type bytes ≡ Some (record { told = told; texts = are_texts told }) }
    ensures tells { (type : ℕ) (bytes : List ℕ) (body : Body) → IsBytes bytes → body_of type bytes ≡ Some body
        → Tells type bytes body.told }
    ensures texts { (type : ℕ) (bytes : List ℕ) (body : Body) → IsBytes bytes → body_of type bytes ≡ Some body
        → body.texts ≡ are_texts body.told }
{}

/// A request's body asks exactly what its fields ask.
#[tactic(auto, using(crate::proofs::RequestLemmas::asked_so, crate::proofs::RequestLemmas::asked_there))]
pub fn requests_ask_their_fields()
    ensures asked { (option : ℕ) (bytes : List ℕ) (asked : Asked) → Asks option bytes asked
        → asked_of option bytes ≡ Some asked }
    ensures asks { (option : ℕ) (bytes : List ℕ) (asked : Asked) → IsBytes bytes → asked_of option bytes ≡ Some asked
        → Asks option bytes asked }
{}

/// A payload has one meaning.
#[tactic(auto, using(crate::proofs::PayloadLemmas::one_payload))]
pub fn payload_is_one()
    ensures { (type : ℕ) (bytes : List ℕ) (one other : Payload) → IsPayload type bytes one → IsPayload type bytes other
        → one ≡ other }
{}
