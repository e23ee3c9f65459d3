//! Lists that mostly have one item.
ghost use Rattle.std.specs.Prelude.{◌≡◌, ◌++◌, ◌∷◌, [], ◌<◌, OnOk, OnErr, vec_len, vec_capacity};

use std::alloc::AllocError;

/// Makes room for one item more, for it alone where it is the first.
pub(crate) fn make_room<T: Drop>(items: &mut Vec<T>) -> Result<(), AllocError>
    ensures items { items.new.items ≡ items.old.items }
    ensures room { OnOk result (vec_len items.new < vec_capacity items.new) }
{
    if items.is_empty() {
        items.reserve_exact(1)
    } else {
        items.reserve(1)
    }
}

/// Adds an item at the end; after a refusal the list is unchanged.
pub(crate) fn push_one<T: Drop>(items: &mut Vec<T>, item: T) -> Result<(), AllocError>
    ensures ok { OnOk result (items.new.items ≡ items.old.items ++ item ∷ []) }
    ensures err { OnErr result (items.new.items ≡ items.old.items) }
{
    make_room(items)?;
    items.push_reserved(item);
    Ok(())
}
