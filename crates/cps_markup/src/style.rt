//! How a part of a row looks.
ghost use Rattle.std.specs.Prelude.{◌≡◌};
ghost use Rattle.cps_markup.specs.Places.{style_name};

/// How a row or a part of it looks.
#[derive(Clone, Copy, PartialEq, Eq)]
pub enum Style {
    /// The letters of flags.
    Flag,
    /// A row with flags.
    Flagged,
    /// The field i of a code.
    FieldI,
    /// The field j of a code.
    FieldJ,
    /// The field k of a code.
    FieldK,
    /// An address or a number in a code.
    Constant,
    /// What means little.
    Grey,
    Comment,
    /// The cause of a flag.
    Cause,
    /// A row of a table.
    Table,
    /// What stands before the source, in a named block.
    Block,
    /// What a cause means.
    Meant,
    /// The operand of a later row.
    Operand,
    /// Lines of a central processor's listing.
    Run,
    /// Lines of a peripheral processor's listing.
    PeripheralRun,
}

impl Style {
    /// The name, by which the page's style sheet calls it.
    pub fn name(self) -> &'static [u8]
        ensures { result.now ≡ style_name self }
    {
        match self {
            Style::Flag => b"f",
            Style::Flagged => b"bad",
            Style::FieldI => b"i",
            Style::FieldJ => b"j",
            Style::FieldK => b"k",
            Style::Constant => b"K",
            Style::Grey => b"z",
            Style::Comment => b"x",
            Style::Cause => b"c",
            Style::Table => b"t",
            Style::Block => b"b",
            Style::Meant => b"u",
            Style::Operand => b"o",
            Style::Run => b"run",
            Style::PeripheralRun => b"run pp",
        }
    }
}
