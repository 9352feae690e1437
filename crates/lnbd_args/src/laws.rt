//! Laws of the grammar of the words, over the definitions that the contract of `read_words` cites. The
//! function does nothing: what it ensures is the law.

ghost use Rattle.std.specs.Prelude.{◌≡◌, List};
ghost use Rattle.lnbd_args.specs.Tools.{Asks, IsMisplaced, IsSplit, Reads, Wanted};
ghost use Rattle.lnbd_args.specs.Words.{Word};
ghost use Rattle.lnbd_args.specs.declared.asked.Asked.{Asked};
ghost use Rattle.lnbd_uri.specs.declared.fault.UriFault.{UriFault};

/// Words are read in one way at most. So they ask for one thing at most, or the first address that is
/// none has one fault, and never both. The first `--run` divides the words behind `serve` in one way.
pub fn one_reading()
    ensures reads { (words : List Word) (one two : Wanted) → Reads words one → Reads words two → one ≡ two }
    ensures asks { (words : List Word) (one two : Asked) → Asks words one → Asks words two → one ≡ two }
    ensures misplaced { (words : List Word) (one two : UriFault) → IsMisplaced words one → IsMisplaced words two → one ≡ two }
    ensures split { (words own run other more : List Word) → IsSplit words own run → IsSplit words other more → (own ≡ other) × (run ≡ more) }
    ensures apart { (words : List Word) (asked : Asked) (fault : UriFault) → Asks words asked → ¬ IsMisplaced words fault }
{}
