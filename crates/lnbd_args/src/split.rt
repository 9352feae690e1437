//! Where serve's own words end, and those of a program begin.

ghost use Rattle.std.specs.Prelude.{◌≡◌, List, MatchOption, map, string_bytes};
ghost use Rattle.lnbd_args.specs.Tools.{IsSplit};
ghost use Rattle.lnbd_args.specs.Words.{Word};
ghost use Rattle.lnbd_args.specs.Written.{run_at};

/// How many words stand before the first `--run`, or in all.
fn run_at(words: &[String]) -> usize
    ensures { result ≡ run_at (map string_bytes words.now) }
{
    let mut count = 0;
    for word in words {
        if word.as_str() == "--run" {
            return count;
        }
        count += 1;
    }
    count
}

/// Serve's own words, and those that run a program. None where nothing stands behind `--run`.
pub(crate) fn split<'a>(words: &'a [String]) -> Option<(&'a [String], &'a [String])>
    ensures { MatchOption result ((own run : List Word) → ¬ IsSplit (map string_bytes words.entry.now) own run)
        (λ s. IsSplit (map string_bytes words.entry.now) (map string_bytes s.0.now) (map string_bytes s.1.now)) }
{
    let (own, rest) = words.split_at(run_at(words));
    match rest.split_first() {
        None => Some((own, rest)),
        Some((_, run)) => {
            if run.is_empty() {
                return None;
            }
            Some((own, run))
        }
    }
}
