//! Mentions that stand where they are told.
ghost use Rattle.std.specs.Prelude.{◌≡◌, IfOk, IfSome, IsTrue, All, Some};
ghost use Rattle.std.specs.List.{flat_map};
ghost use Rattle.cps_text.specs.Name.{name_of};
ghost use Rattle.cps_mention.specs.Mentions.{AreIn, IsStretch, Stands, text_in};

use crate::mention::Mention;
use crate::stretch::Stretch;
use cps_expr::is_same_name;
use cps_list::View;
use cps_text::Name;
use std::alloc::{AllocError, Global};

/// Those of the mentions that stand where they are told.
pub fn keep_standing<V: View>(
    alloc: Global,
    view: &V,
    found: Vec<Mention>,
) -> Result<Vec<Mention>, AllocError>
    ensures { IfOk result (λ mentions. All (Stands (V.assembly view.now).lines) mentions.items) }
{
    let mut mentions = Vec::with_capacity(alloc, found.len())?;
    for mention in found {
        if stands(alloc, view, &mention)? {
            mentions.push(mention)?;
        }
    }
    Ok(mentions)
}

/// Whether each stretch has columns of its line, and what stands there writes the name.
fn stands<V: View>(alloc: Global, view: &V, mention: &Mention) -> Result<bool, AllocError>
    ensures { IfOk result (λ stands. IsTrue stands → Stands (V.assembly view.now).lines mention.now) }
{
    match text_of(alloc, view, &mention.written)? {
        Some(text) => Ok(writes(&text, mention.meaning.name())),
        None => Ok(false),
    }
}

/// Whether a text writes a name.
fn writes(text: &[u8], name: Name) -> bool
    ensures { IsTrue result → name_of text.now ≡ Some name }
{
    match Name::read(text) {
        Some(read) => is_same_name(read, name),
        None => false,
    }
}

/// What stands in stretches, one after another; None where the source hasn't all of these columns.
fn text_of<V: View>(
    alloc: Global,
    view: &V,
    stretches: &[Stretch],
) -> Result<Option<Vec<u8>>, AllocError>
    ensures columns { IfOk result (λ found. IfSome found (λ text. AreIn (V.assembly view.now).lines stretches.now)) }
    ensures text { IfOk result (λ found. IfSome found (λ text. text.items ≡ flat_map (text_in (V.assembly view.now).lines) stretches.now)) }
{
    let mut text = Vec::new(alloc);
    for stretch in stretches {
        match text_in(view, *stretch) {
            Some(part) => text.extend_from_slice(part)?,
            None => return Ok(None),
        }
    }
    Ok(Some(text))
}

/// What stands in columns; None where the source hasn't all of them.
fn text_in<V: View>(view: &V, stretch: Stretch) -> Option<&[u8]>
    ensures columns { IfSome result (λ text. IsStretch (V.assembly view.now).lines stretch) }
    ensures text { IfSome result (λ text. text.now ≡ text_in (V.assembly view.now).lines stretch) }
{
    let line = view.line(stretch.line)?.bytes();
    if stretch.first < 1 || stretch.first >= stretch.end || stretch.end > line.len() + 1 {
        return None;
    }
    Some(&line[stretch.first - 1..stretch.end - 1])
}
