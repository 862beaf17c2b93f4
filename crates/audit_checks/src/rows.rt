ghost use Rattle.std.specs.Prelude.{◌≡◌, ◌<◌, [], ◌∷◌, ◌++◌, length, vec_len, slice_set, OnOk, IfOk, replicate};
ghost use Rattle.audit_checks.specs.Rows.{rows_of, row};

use std::alloc::{AllocError, Global};

// So many empty rows.
pub fn empty_rows<T: Drop>(alloc: Global, count: usize) -> Result<Vec<Vec<T>>, AllocError>
    ensures { IfOk result (λ rows. rows_of rows.items ≡ replicate count []) }
{
    let mut rows = Vec::new(alloc);
    for _ in 0..count {
        rows.push(Vec::new(alloc))?;
    }
    Ok(rows)
}

// Puts an item at the end of a row.
pub fn push_at<T: Drop>(rows: &mut Vec<Vec<T>>, at: usize, item: T) -> Result<(), AllocError>
    requires { at < vec_len rows.old }
    ensures ok { OnOk result (rows_of rows.new.items ≡ slice_set (rows_of rows.old.items) at (row (rows_of rows.old.items) at ++ item ∷ [])) }
    ensures len { vec_len rows.new ≡ vec_len rows.old }
{
    rows[at].push(item)?;
    Ok(())
}
