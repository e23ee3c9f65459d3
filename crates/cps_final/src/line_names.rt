//! The symbols that a line reads, and those that it defines.
ghost use Rattle.std.specs.Prelude.{◌≡◌, ◌++◌, flat_map, OnOk};
ghost use Rattle.cps_expr.specs.Value.{same_name};
ghost use Rattle.cps_state.specs.Made.{content_names};
ghost use Rattle.cps_final.specs.LineNames.{names_later, symbol_put};
ghost use Rattle.indexmap.specs.IndexSet.{insert_all};

use cps_state::{Content, Hashing, Item, Key, Put};
use cps_text::Name;
use indexmap::IndexSet;
use std::alloc::AllocError;

/// Names, each once, in the order in which they were added.
pub trait NameSet {
    ghost use Rattle.std.specs.Prelude.{◌≡◌, List, OnOk};
    ghost use Rattle.cps_text.specs.declared.name.Name.{Name};
    ghost use Rattle.cps_expr.specs.Value.{same_name};
    ghost use Rattle.indexmap.specs.IndexSet.{insert_key};

    ghost names: { Self → List Name };

    /// Adds a name, unless it is there. An error says that there is no room for it.
    fn add(&mut self, name: Name) -> Result<(), AllocError>
        ensures { OnOk result (names self.new ≡ insert_key same_name (names self.old) name) };
}

impl NameSet for IndexSet<Name, Hashing> {
    ghost names = { λ set. set.keys };

    #[inline(always)]
    fn add(&mut self, name: Name) -> Result<(), AllocError> {
        self.insert(name)?;
        Ok(())
    }
}

/// Inserts the symbols that puts define.
pub fn insert_defined<S: NameSet>(names: &mut S, puts: &[Put]) -> Result<(), AllocError>
    ensures { OnOk result (S.names names.new ≡ insert_all same_name (S.names names.old) (flat_map (λ p. symbol_put p.key) puts.now)) }
{
    for put in puts {
        insert_symbol(names, put.key)?;
    }
    Ok(())
}

fn insert_symbol<S: NameSet>(names: &mut S, key: Key) -> Result<(), AllocError>
    ensures { OnOk result (S.names names.new ≡ insert_all same_name (S.names names.old) (symbol_put key)) }
{
    match key {
        Key::Label(name) => names.add(name),
        Key::Setting(name) => names.add(name),
        _ => Ok(()),
    }
}

/// Inserts the symbols that a line reads, now or later.
pub fn insert_read<S: NameSet>(
    names: &mut S,
    reads: &[Name],
    items: &[Item],
) -> Result<(), AllocError>
    ensures { OnOk result (S.names names.new ≡ insert_all same_name (S.names names.old) (reads.now ++ names_later items.now)) }
{
    insert_names(names, reads)?;
    insert_later_names(names, items)
}

fn insert_later_names<S: NameSet>(names: &mut S, items: &[Item]) -> Result<(), AllocError>
    ensures { OnOk result (S.names names.new ≡ insert_all same_name (S.names names.old) (names_later items.now)) }
{
    for item in items {
        insert_contents_names(names, item.made.contents())?;
    }
    Ok(())
}

fn insert_contents_names<S: NameSet>(names: &mut S, contents: &[Content]) -> Result<(), AllocError>
    ensures { OnOk result (S.names names.new ≡ insert_all same_name (S.names names.old) (flat_map content_names contents.now)) }
{
    for content in contents {
        for hole in content.holes() {
            insert_names(names, hole.operand.names())?;
        }
    }
    Ok(())
}

fn insert_names<S: NameSet>(names: &mut S, found: &[Name]) -> Result<(), AllocError>
    ensures { OnOk result (S.names names.new ≡ insert_all same_name (S.names names.old) found.now) }
{
    for name in found {
        names.add(*name)?;
    }
    Ok(())
}
