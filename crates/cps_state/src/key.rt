//! Keys of the state of an assembly, and their answers.
ghost use Rattle.std.specs.Prelude.{◌≡◌, IfOk, OnOk, reverse};
ghost use Rattle.cps_state.specs.Keys.{same_block, same_key};

use crate::shared::Shared;
use crate::shared_macro::SharedMacro;
use crate::shared_mode::SharedMode;
use cps_code::Place;
use cps_expr::{Machine, Radix, Value, is_same_name};
use cps_text::Name;
use std::alloc::AllocError;

/// A part of the state of an assembly.
#[derive(Clone, Copy, PartialEq, Eq, Hash)]
pub enum Key {
    /// The part of the program, the machine, the base of numbers, the block in use, and what is done with the lines to come.
    Control,
    /// Where the next word or parcel of a block stands; None is the nominal block.
    Counter(Option<Name>),
    /// The value of a symbol.
    Label(Name),
    /// The value that SET gave a symbol.
    Setting(Name),
    /// The blocks that USE left and may go back to.
    Uses,
    /// The ranges that are open, whose lines are assembled.
    Ifs,
    /// How many named blocks USE has begun.
    Blocks,
    /// What a macro stands for.
    Macro(Name),
    /// A line that is kept for a macro or for DUP; the first one is 0.
    Kept(u32),
    /// How many names were generated for local names of macros' calls.
    Locals,
}

/// What came in the head of a program.
#[derive(Clone, Copy, PartialEq, Eq)]
pub struct Head {
    /// A name, by IDENT.
    pub is_named: bool,
    /// The machine, by ABS or PERIPH.
    pub is_declared: bool,
}

/// The part of a program.
#[derive(Clone, Copy, PartialEq, Eq)]
pub enum Phase {
    /// Before the first statement other than IDENT, ABS, PERIPH, BASE, EQU, `=`, SET, TITLE, SPACE, EJECT, LIST, MACRO and ENDM, comments and lines
    /// without an operation apart.
    Head(Head),
    Body,
    /// After END.
    AfterEnd,
}

/// A range whose lines are skipped, up to its end.
#[derive(Clone, Copy, PartialEq, Eq)]
pub struct Skip {
    /// How many ranges that began in it are open.
    pub nested: u32,
    /// Whether its ELSE takes up assembly.
    pub may_resume: bool,
}

/// Lines that are kept.
#[derive(Clone, Copy, PartialEq, Eq)]
pub struct KeptLines {
    pub lines: u32,
    /// Whether there were more than a body may have.
    pub is_over: bool,
}

/// The body of a macro that is kept, up to ENDM.
#[derive(PartialEq, Eq, Drop)]
pub struct MacroBody {
    /// None: the definition is dropped at its end.
    pub name: Option<Name>,
    pub parameters: Shared<Name>,
    pub kept: KeptLines,
}

/// How far the lines of DUP reach.
#[derive(Clone, Copy, PartialEq, Eq)]
pub enum Extent {
    /// So many are still to come.
    Counted(u32),
    /// Up to ENDD, with so many ranges of other DUPs open.
    ToEndd(u32),
}

/// The lines of DUP that are kept.
#[derive(Clone, Copy, PartialEq, Eq)]
pub struct DupBody {
    /// How often they will be assembled.
    pub times: u32,
    pub extent: Extent,
    pub kept: KeptLines,
}

/// What is done with the lines to come.
#[derive(PartialEq, Eq, Drop)]
pub enum Mode {
    /// They are assembled.
    Normal,
    /// So many are skipped.
    SkipLines(u32),
    SkipRange(Skip),
    KeepMacro(MacroBody),
    KeepDup(DupBody),
}

impl Mode {
    /// The same mode once more. Takes no memory; it is refused only past the most owners of what is shared.
    pub fn share(&self) -> Result<Mode, AllocError>
        ensures { IfOk result (λ same. same ≡ self.now) }
    {
        match self {
            Mode::Normal => Ok(Mode::Normal),
            Mode::SkipLines(count) => Ok(Mode::SkipLines(*count)),
            Mode::SkipRange(skip) => Ok(Mode::SkipRange(*skip)),
            Mode::KeepMacro(body) => Ok(Mode::KeepMacro(body.share()?)),
            Mode::KeepDup(body) => Ok(Mode::KeepDup(*body)),
        }
    }
}

impl MacroBody {
    /// The same body once more.
    pub fn share(&self) -> Result<MacroBody, AllocError>
        ensures { IfOk result (λ same. same ≡ self.now) }
    {
        Ok(MacroBody {
            name: self.name,
            parameters: self.parameters.share()?,
            kept: self.kept,
        })
    }
}

/// A range that is open and whose lines are assembled.
#[derive(Clone, Copy, PartialEq, Eq)]
pub enum OpenRange {
    BeforeElse,
    BehindElse,
}

/// A macro: its parameters, the LOCAL lines that its body begins with, and the lines behind them.
#[derive(PartialEq, Eq, Drop)]
pub struct Macro {
    pub parameters: Shared<Name>,
    pub locals: Shared<Shared<u8>>,
    pub lines: Shared<Shared<u8>>,
}

impl Macro {
    /// The same macro once more. Takes no memory; it is refused only past the most owners of what is shared.
    pub fn share(&self) -> Result<Macro, AllocError>
        ensures { IfOk result (λ same. same ≡ self.now) }
    {
        Ok(Macro {
            parameters: self.parameters.share()?,
            locals: self.locals.share()?,
            lines: self.lines.share()?,
        })
    }
}

/// What holds for the lines to come that are assembled: the part of the program that they are in, the machine, the base of their numbers and the
/// block in use.
#[derive(Clone, Copy, PartialEq, Eq)]
pub struct Control {
    pub phase: Phase,
    pub machine: Machine,
    pub radix: Radix,
    /// None: the nominal block.
    pub block: Option<Name>,
}

/// What stands at a key.
#[derive(PartialEq, Eq, Drop)]
pub enum Answer {
    Control(Control, SharedMode),
    Counter(Place),
    Value(Value),
    /// The last block in front; None is the nominal block.
    Uses(Shared<Option<Name>>),
    /// The newest range in front.
    Ifs(Shared<OpenRange>),
    Count(u32),
    Macro(SharedMacro),
    /// The text of a line.
    Text(Shared<u8>),
}

impl Answer {
    /// The same answer once more. Takes no memory; it is refused only past the most owners of what is shared.
    pub fn share(&self) -> Result<Answer, AllocError>
        ensures { IfOk result (λ same. same ≡ self.now) }
    {
        match self {
            Answer::Control(control, mode) => Ok(Answer::Control(*control, mode.share()?)),
            Answer::Counter(place) => Ok(Answer::Counter(*place)),
            Answer::Value(value) => Ok(Answer::Value(*value)),
            Answer::Uses(uses) => Ok(Answer::Uses(uses.share()?)),
            Answer::Ifs(ranges) => Ok(Answer::Ifs(ranges.share()?)),
            Answer::Count(count) => Ok(Answer::Count(*count)),
            Answer::Macro(named) => Ok(Answer::Macro(named.share()?)),
            Answer::Text(text) => Ok(Answer::Text(text.share()?)),
        }
    }
}

/// A key and what stood there, None where nothing stood.
#[derive(PartialEq, Eq, Drop)]
pub struct Asked {
    pub key: Key,
    pub answer: Option<Answer>,
}

/// A key and what stands there from now on.
#[derive(PartialEq, Eq, Drop)]
pub struct Put {
    pub key: Key,
    pub answer: Answer,
}

/// The same puts once more, the first at the end, in the place of what a list has.
pub fn share_puts(same: &mut Vec<Put>, puts: &[Put]) -> Result<(), AllocError>
    ensures { OnOk result (reverse same.new.items ≡ puts.now) }
{
    same.clear();
    for put in puts.iter().rev() {
        same.push(Put {
            key: put.key,
            answer: put.answer.share()?,
        })?;
    }
    Ok(())
}

/// Whether two keys are one.
pub fn is_same_key(a: &Key, b: &Key) -> bool
    ensures { result ≡ same_key a.now b.now }
{
    match (a, b) {
        (Key::Control, Key::Control) => true,
        (Key::Counter(a), Key::Counter(b)) => is_same_block(*a, *b),
        (Key::Label(a), Key::Label(b)) => is_same_name(*a, *b),
        (Key::Setting(a), Key::Setting(b)) => is_same_name(*a, *b),
        (Key::Macro(a), Key::Macro(b)) => is_same_name(*a, *b),
        (Key::Kept(a), Key::Kept(b)) => a == b,
        (Key::Uses, Key::Uses) | (Key::Ifs, Key::Ifs) => true,
        (Key::Blocks, Key::Blocks) | (Key::Locals, Key::Locals) => true,
        _ => false,
    }
}

/// Whether two blocks are one.
pub fn is_same_block(a: Option<Name>, b: Option<Name>) -> bool
    ensures { result ≡ same_block a b }
{
    match (a, b) {
        (None, None) => true,
        (Some(a), Some(b)) => is_same_name(a, b),
        _ => false,
    }
}
