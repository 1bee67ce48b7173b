//! Lists that take room with their first member.
ghost use Rattle.std.specs.Prelude.{◌≡◌, ◌++◌, ◌∷◌, [], IfOk};

use std::alloc::Global;
use xc_base::{List, Memory};

/// The list with one more member at its end, or want of memory. The first member takes room for so many.
pub(crate) fn with_member<T: Drop>(
    alloc: Global,
    mut list: List<T>,
    member: T,
    room: usize,
) -> Result<List<T>, Memory>
    ensures { IfOk result (λ all. all ≡ list ++ member ∷ []) }
{
    if list.is_empty() {
        list = List::from_vec(Vec::with_capacity(alloc, room)?);
    }
    list.push(member)?;
    Ok(list)
}
