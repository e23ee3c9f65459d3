//! USE: another block.
ghost use Rattle.std.specs.Prelude.{◌≡◌, ◌<◌, ◌^◌, OnOk, IfOk};
ghost use Rattle.std.specs.Option.{option_copied};
ghost use Rattle.cps_state.specs.Keys.{uses_of};
ghost use Rattle.cps_state.specs.Code.Line.{Does, line_answer, line_asked};
ghost use Rattle.cps_pass.specs.Use as use_of;

use crate::context::Context;
use crate::leaving::select;
use crate::located::present_flags;
use crate::making::{unmatched, unread};
use crate::places::{go_on, leave_word, stand};
use cps_code::Place;
use cps_expr::Block;
use cps_state::{
    Answer, Key, Lookup, Made, Recorder, Shared, Shown, count_of, is_place, is_same_block, uses_of,
    uses_with,
};
use cps_text::Name;
use cps_text::limits::MOST_BLOCKS;
use std::alloc::AllocError;

/// What a USE leaves: the place in the block in use, and the blocks that it may go back to, the last in front.
#[derive(Clone, Copy)]
struct Leaving<'a> {
    context: Context,
    place: Place,
    uses: &'a [Option<Name>],
    ghost low: { place.word < 2 ^ 26 },
}

/// USE: leaves the word that was begun, and selects a block.
pub fn use_block<L: Lookup>(
    recorder: &mut Recorder<'_, L>,
    context: Context,
    block: Block,
) -> Result<(), AllocError>
    ensures { OnOk result (Does (use_of.use_block context.control context.location block) L.answer recorder.old recorder.new) }
{
    let place = stand(recorder, context.control)?;
    let uses = ask_uses(recorder)?;
    let leaving = Leaving {
        context,
        place,
        uses: uses.as_slice(),
    };
    leave(recorder, leaving, block)
}

/// The blocks that USE may go back to.
fn ask_uses<L: Lookup>(recorder: &mut Recorder<'_, L>) -> Result<Shared<Option<Name>>, AllocError>
    ensures asks { OnOk result (recorder.new ≡ line_asked L.answer recorder.old Key.Uses) }
    ensures uses { IfOk result (λ uses. uses ≡ uses_of (line_answer L.answer recorder.old Key.Uses)) }
{
    let known = recorder.note(Key::Uses)?;
    uses_of(recorder.answer(known))
}

fn leave<L: Lookup>(
    recorder: &mut Recorder<'_, L>,
    leaving: Leaving<'_>,
    block: Block,
) -> Result<(), AllocError>
    ensures { OnOk result (Does (use_of.leaving leaving.entry.context.control leaving.entry.context.location leaving.entry.place leaving.entry.uses.now block) L.answer recorder.old recorder.new) }
{
    let alloc = recorder.alloc();
    match block {
        Block::Nominal => {
            let uses = uses_with(alloc, leaving.context.control.block, leaving.uses)?;
            go_to(recorder, leaving, uses, None, None)
        }
        Block::Previous => {
            let uses = Shared::new(alloc, before_previous(leaving.uses))?;
            go_to(recorder, leaving, uses, None, previous(leaving.uses))
        }
        Block::Named(name) => go_to_named(recorder, leaving, name),
    }
}

/// USE with an unreadable operand.
pub fn unread_use<L: Lookup>(
    recorder: &mut Recorder<'_, L>,
    context: Context,
) -> Result<(), AllocError>
    ensures { OnOk result (Does (use_of.unread_use context.control context.location) L.answer recorder.old recorder.new) }
{
    stand(recorder, context.control)?;
    recorder.note(Key::Uses)?;
    unread(recorder, context.location);
    Ok(())
}

/// The block that was left last, the nominal one where none was.
fn previous(uses: &[Option<Name>]) -> Option<Name>
    ensures { result ≡ use_of.previous uses.now }
{
    match uses {
        [block, ..] => *block,
        [] => None,
    }
}

/// The blocks that were left before the last.
fn before_previous(uses: &[Option<Name>]) -> &[Option<Name>]
    ensures { result.now ≡ use_of.before_previous uses.now }
{
    match uses {
        [_, rest @ ..] => rest,
        [] => &[],
    }
}

/// Whether a named block has begun: it is in use, or its counter stands.
fn has_begun(present: Option<Name>, name: Name, answer: Option<&Answer>) -> bool
    ensures { result ≡ use_of.has_begun present name (option_copied answer.entry) }
{
    is_same_block(present, Some(name)) || is_place(answer)
}

fn go_to_named<L: Lookup>(
    recorder: &mut Recorder<'_, L>,
    leaving: Leaving<'_>,
    name: Name,
) -> Result<(), AllocError>
    ensures { OnOk result (Does (use_of.leaving leaving.entry.context.control leaving.entry.context.location leaving.entry.place leaving.entry.uses.now (Block.Named name)) L.answer recorder.old recorder.new) }
{
    let alloc = recorder.alloc();
    let present = leaving.context.control.block;
    let known = recorder.note(Key::Counter(Some(name)))?;
    if has_begun(present, name, recorder.answer(known)) {
        let uses = uses_with(alloc, present, leaving.uses)?;
        return go_to(recorder, leaving, uses, None, Some(name));
    }
    let known = recorder.note(Key::Blocks)?;
    let count = count_of(recorder.answer(known));
    go_to_new(recorder, leaving, name, count)
}

/// A block that has not begun yet; there is no room for it where there are too many.
fn go_to_new<L: Lookup>(
    recorder: &mut Recorder<'_, L>,
    leaving: Leaving<'_>,
    name: Name,
    count: u32,
) -> Result<(), AllocError>
    ensures { OnOk result (Does (use_of.going_to_new leaving.entry.context.control leaving.entry.context.location leaving.entry.place leaving.entry.uses.now name count) L.answer recorder.old recorder.new) }
{
    if count >= MOST_BLOCKS {
        unmatched(recorder, leaving.context.location);
        return Ok(());
    }
    let alloc = recorder.alloc();
    let uses = uses_with(alloc, leaving.context.control.block, leaving.uses)?;
    go_to(recorder, leaving, uses, Some(count + 1), Some(name))
}

/// Leaves the word that was begun for a block, with these blocks to go back to. A new block is told by the count with it.
fn go_to<L: Lookup>(
    recorder: &mut Recorder<'_, L>,
    leaving: Leaving<'_>,
    uses: Shared<Option<Name>>,
    count: Option<u32>,
    block: Option<Name>,
) -> Result<(), AllocError>
    ensures { OnOk result (Does (use_of.going_to leaving.entry.context.control leaving.entry.context.location leaving.entry.place uses count block) L.answer recorder.old recorder.new) }
{
    let control = leaving.context.control;
    let left = leave_word(leaving.place);
    go_on(recorder, control.block, left.start, false)?;
    recorder.put(Key::Uses, Answer::Uses(uses))?;
    if let Some(count) = count {
        go_on(recorder, block, 0, false)?;
        recorder.put(Key::Blocks, Answer::Count(count))?;
    }
    select(recorder, control, block)?;
    recorder.fill(Made::leaving(
        present_flags(leaving.context.location),
        control.machine,
        left.filling,
        Shown::Nothing,
    ));
    Ok(())
}
