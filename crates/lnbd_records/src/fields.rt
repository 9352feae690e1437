//! Fields that are put are read again, and fields that are read are those that were put.

ghost use Rattle.std.specs.Prelude.{◌≡◌, ◌≤◌, ◌++◌, List, ℕ, length, drop};
ghost use Rattle.lnbd_records.specs.Numbers.{Field, row, AllFit, IsBytes, IsRowThen, fields_at, widths, total};

/// What was put is read again, whatever follows it.
pub fn put_then_read()
    ensures fields { (fields : List Field) (rest : List ℕ) → AllFit fields
        → fields_at 0 (widths fields) (row fields ++ rest) ≡ fields }
    ensures rest { (fields : List Field) (rest : List ℕ) → AllFit fields
        → drop (total (widths fields)) (row fields ++ rest) ≡ rest }
{}

/// Bytes that are long enough are the fields of any widths that stand in them, and what follows.
#[tactic(auto, using(crate::proofs::NumberLaws::reads_then))]
pub fn read_then_put()
    ensures { (sizes bytes : List ℕ) → IsBytes bytes → total sizes ≤ length bytes
        → IsRowThen (fields_at 0 sizes bytes) (drop (total sizes) bytes) bytes }
{}
