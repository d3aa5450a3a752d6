//! The hauls of two groups of workers, as one list.

ghost use Rattle.std.specs.Prelude.{◌≡◌, ◌++◌, IfOk, IsOkAnd};

use ghcn_fields::Memory;

/// Both lists, the second after the first.
pub(crate) fn both<T: Drop>(
    first: Result<Vec<T>, Memory>,
    second: Result<Vec<T>, Memory>,
) -> Result<Vec<T>, Memory>
    ensures { IfOk result (λ all. IsOkAnd first (λ a. IsOkAnd second (λ b. all.items ≡ a.items ++ b.items))) }
{
    let mut all = first?;
    let mut more = second?;
    all.append(&mut more)?;
    Ok(all)
}
