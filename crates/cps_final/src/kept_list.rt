//! Lists of which most have one item alone.
ghost use Rattle.std.specs.Mem.{FitsInMemory};
ghost use Rattle.std.specs.Prelude.{◌≡◌};

use std::marker::Model;
use std::slice::from_ref;

/// Items, one after another. One alone is kept in place.
#[derive(Drop)]
pub struct KeptList<T> {
    kept: KeptItems<T>,
}

#[derive(Drop)]
enum KeptItems<T> {
    One(T),
    Several(Vec<T>),
}

impl<T> Model for KeptList<T> {
    ghost use Rattle.std.specs.Prelude.{List};
    ghost use Rattle.cps_final.specs.Code.ItemsKept.{items_in};

    ghost Value = { List T };

    ghost view = { λ list. items_in list.kept };
}

impl<T: Drop> KeptList<T> {
    /// Of these items. Takes no memory.
    pub fn of(items: Vec<T>) -> KeptList<T>
        ensures { result ≡ items.items }
    {
        let mut items = items;
        if items.len() == 1 {
            if let Some(item) = items.pop() {
                return KeptList {
                    kept: KeptItems::One(item),
                };
            }
        }
        KeptList {
            kept: KeptItems::Several(items),
        }
    }
}

impl<T> KeptList<T> {
    /// The items, in their order.
    pub fn as_slice(&self) -> &[T]
        requires { FitsInMemory T.row }
        ensures { result.now ≡ self.now }
    {
        match &self.kept {
            KeptItems::One(item) => from_ref(item),
            KeptItems::Several(items) => items.as_slice(),
        }
    }
}
