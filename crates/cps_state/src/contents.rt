//! The contents of a statement.
ghost use Rattle.std.specs.Prelude.{◌≡◌, [], ◌∷◌};

use crate::made::Content;
use std::alloc::Global;
use std::marker::Model;
use std::slice::from_ref;

/// Contents, one after another. One alone is kept in place.
#[derive(Drop)]
pub struct Contents {
    kept: KeptContents,
}

#[derive(Drop)]
enum KeptContents {
    One(Content),
    Several(Vec<Content>),
}

impl Model for Contents {
    ghost use Rattle.std.specs.Prelude.{List};
    ghost use Rattle.cps_state.specs.declared.made.Content.{Content};
    ghost use Rattle.cps_state.specs.Code.ContentsKept.{contents_in};

    ghost Value = { List Content };

    ghost view = { λ contents. contents_in contents.kept };
}

impl Contents {
    /// None. Takes no memory.
    pub fn none(alloc: Global) -> Contents
        ensures { result ≡ [] }
    {
        Contents::several(Vec::new(alloc))
    }

    /// One alone. Takes no memory.
    pub fn one(content: Content) -> Contents
        ensures { result ≡ content ∷ [] }
    {
        Contents {
            kept: KeptContents::One(content),
        }
    }

    /// Those of a list.
    pub fn several(contents: Vec<Content>) -> Contents
        ensures { result ≡ contents.items }
    {
        Contents {
            kept: KeptContents::Several(contents),
        }
    }

    /// The contents, in their order.
    pub fn as_slice(&self) -> &[Content]
        ensures { result.now ≡ self.now }
    {
        match &self.kept {
            KeptContents::One(content) => from_ref(content),
            KeptContents::Several(contents) => contents.as_slice(),
        }
    }
}
