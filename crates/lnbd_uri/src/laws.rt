//! Laws of the grammar of addresses, over the definitions that the contract of `parse` cites. The
//! functions do nothing: what they ensure is the law.

ghost use Rattle.std.specs.Prelude.{◌≡◌, ℕ, ◌≤◌, ◌<◌, List, Option, length};
ghost use Rattle.lnbd_model.specs.Text.{IsText};
ghost use Rattle.lnbd_model.specs.declared.target.Place.{Place};
ghost use Rattle.percent_encoding.specs.declared.ascii_set.AsciiSet.{AsciiSet};
ghost use Rattle.lnbd_uri.specs.Address.{IsAddress};
ghost use Rattle.lnbd_uri.specs.Fault.{HasFault};
ghost use Rattle.lnbd_uri.specs.Parts.{IsHost, IsPortOf};
ghost use Rattle.lnbd_uri.specs.Spelling.{EscapesMarks, IsBytes, tcp_place, tcp_spelling, unix_place, unix_spelling};
ghost use Rattle.lnbd_uri.specs.declared.fault.UriFault.{UriFault};

/// A text is an address of one place at most, or has one lowest fault at most, and never both.
pub fn one_answer()
    ensures place { (text : List ℕ) (place other : Place) → IsAddress text place → IsAddress text other → place ≡ other }
    ensures fault { (text : List ℕ) (fault other : UriFault) → HasFault text fault → HasFault text other → fault ≡ other }
    ensures apart { (text : List ℕ) (place : Place) (fault : UriFault) → IsAddress text place → ¬ HasFault text fault }
{}

/// Every place that has a spelling is what that spelling is an address of: a host of the characters
/// of hosts, digits that spell the port (or none, for 10809) and the escaped name; or the escaped
/// name and the escaped path, which isn't empty. Which further bytes are escaped doesn't matter.
pub fn every_place_is_spelled()
    ensures tcp { (set : AsciiSet) (host : List ℕ) (digits : Option (List ℕ)) (name : List ℕ) (port : ℕ)
        → EscapesMarks set → IsHost host → length host ≤ 4096 → IsPortOf digits port → IsBytes name → IsText name
        → IsAddress (tcp_spelling set host digits name) (tcp_place host port name) }
    ensures unix { (set : AsciiSet) (path name : List ℕ) → EscapesMarks set
        → 0 < length path → IsBytes path → IsText path → IsBytes name → IsText name
        → IsAddress (unix_spelling set path name) (unix_place path name) }
{}
