//! Items that are shared and not changed.
ghost use Rattle.std.specs.Prelude.{◌≡◌, [], ◌∷◌, IfOk};

use std::alloc::{AllocError, Global};
use std::cmp::PartialEq;
use std::marker::Model;
use std::rc::RcSlice;

/// Items that are shared and not changed: a text, the parameters of a macro, or what is open or was left, the newest in front.
#[derive(Drop)]
pub struct Shared<T> {
    /// None: no items.
    items: Option<RcSlice<T>>,
}

impl<T> Model for Shared<T> {
    ghost use Rattle.std.specs.Prelude.{List, [], option_map, unwrap_or};
    ghost use Rattle.std.specs.Rc.{rc_slice_items};

    ghost Value = { List T };

    ghost view = { λ shared. unwrap_or (option_map rc_slice_items shared.items) [] };
}

impl<T: PartialEq> PartialEq for Shared<T> {
    ghost use Rattle.std.specs.Cmp.Lexicographic.{pointwise, lists_per};

    ghost eq = { pointwise T.eq };

    ghost laws = { lists_per T.laws };

    fn eq(&self, other: &Shared<T>) -> bool {
        self.as_slice() == other.as_slice()
    }
}

impl<T: Eq> Eq for Shared<T> {
    ghost use Rattle.std.specs.Cmp.Lexicographic.{lists_equiv};

    ghost laws = { lists_equiv T.Eq.laws };
}

impl<T> Shared<T> {
    /// No items. Takes no memory.
    pub fn empty() -> Shared<T>
        ensures { result ≡ [] }
    {
        Shared { items: None }
    }

    /// The items.
    pub fn as_slice(&self) -> &[T]
        ensures { result.now ≡ self.now }
    {
        match &self.items {
            Some(items) => items.as_slice(),
            None => &[],
        }
    }
}

impl<T: Drop> Shared<T> {
    /// Of these items.
    pub fn from_vec(items: Vec<T>) -> Result<Shared<T>, AllocError>
        ensures { IfOk result (λ shared. shared ≡ items.items) }
    {
        let items = RcSlice::from_vec(items)?;
        Ok(Shared { items: Some(items) })
    }

    /// The same items once more. Takes no memory.
    pub fn share(&self) -> Result<Shared<T>, AllocError>
        ensures { IfOk result (λ same. same ≡ self.now) }
    {
        match &self.items {
            Some(items) => {
                let items = items.clone()?;
                Ok(Shared { items: Some(items) })
            }
            None => Ok(Shared::empty()),
        }
    }
}

impl<T: Copy> Shared<T> {
    /// Of these items.
    pub fn new(alloc: Global, items: &[T]) -> Result<Shared<T>, AllocError>
        ensures { IfOk result (λ shared. shared ≡ items.now) }
    {
        let items = RcSlice::from_slice(alloc, items)?;
        Ok(Shared { items: Some(items) })
    }

    /// An item in front of others.
    pub fn with(alloc: Global, item: T, others: &[T]) -> Result<Shared<T>, AllocError>
        ensures { IfOk result (λ shared. shared ≡ item ∷ others.now) }
    {
        let mut items = Vec::new(alloc);
        items.push(item)?;
        items.extend_from_slice(others)?;
        Shared::from_vec(items)
    }
}
