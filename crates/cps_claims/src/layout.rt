//! How an octal text is laid out: the words that it has, the columns that are read, and how far its addresses are moved.
ghost use Rattle.std.specs.Prelude.{◌≡◌, ◌<◌, ◌≤◌, take, drop};
ghost use Rattle.cps_claims.specs.Columns.{columns_read};
ghost use Rattle.cps_claims.specs.Words as words;
ghost use Rattle.cps_claims.specs.Words.{size_of, parcel_of};

/// The words of the central processor have 20 octal digits, those of a peripheral processor 4.
#[derive(Clone, Copy)]
pub enum WordForm {
    Central,
    Peripheral,
}

/// Columns of a row, from 1 on, both counted.
#[derive(Clone, Copy)]
pub struct ReadColumns {
    pub first: usize,
    pub last: usize,
}

/// How many words are added to each address of a text, or taken away from it.
#[derive(Clone, Copy)]
pub enum WordOffset {
    Up(u32),
    Down(u32),
}

/// What stands in the rows of an octal text.
#[derive(Clone, Copy, Debug, PartialEq, Eq)]
pub enum OctalFormat {
    /// A listing, typed words or a dump. A row without an address goes on in the word of the row before. An asterisk begins a comment.
    Rows,
    /// A dump. Rows have whole words; one without an address goes on with the next word. A row `*`, or one that begins with DUPL, REPEAT
    /// or SAME, says that the words of the row before stand again, up to the address of the row behind.
    Dump,
}

/// How an octal text is laid out.
#[derive(Clone, Copy)]
pub struct OctalLayout {
    pub format: OctalFormat,
    pub form: WordForm,
    /// None: all columns are read.
    pub columns: Option<ReadColumns>,
    pub offset: WordOffset,
}

/// The octal digits of a word: 20 or 4.
pub fn word_size(form: WordForm) -> usize
    ensures size { result ≡ size_of form }
    ensures some { 0 < result }
    ensures few { result ≤ 20 }
{
    match form {
        WordForm::Central => 20,
        WordForm::Peripheral => 4,
    }
}

/// The octal digits that stand together: 5 or 4.
pub fn parcel_size(form: WordForm) -> usize
    ensures size { result ≡ parcel_of form }
    ensures some { 0 < result }
{
    match form {
        WordForm::Central => 5,
        WordForm::Peripheral => 4,
    }
}

/// Whether rows have whole words, and may say that words stand again.
pub fn is_dump(format: OctalFormat) -> bool
    ensures { result ≡ words.is_dump format }
{
    match format {
        OctalFormat::Rows => false,
        OctalFormat::Dump => true,
    }
}

/// The columns of a row that are read. A column is a byte here, also a tab.
pub fn cut_row(row: &[u8], columns: Option<ReadColumns>) -> &[u8]
    ensures { result.now ≡ columns_read columns row.now }
{
    match columns {
        Some(columns) => behind(columns.first.saturating_sub(1), up_to(columns.last, row)),
        None => row,
    }
}

/// The first so many bytes of a row.
fn up_to(count: usize, row: &[u8]) -> &[u8]
    ensures { result.now ≡ take count row.now }
{
    if row.len() < count {
        return row;
    }
    let (front, _) = row.split_at(count);
    front
}

/// What stands behind the first so many bytes of a row.
fn behind(count: usize, row: &[u8]) -> &[u8]
    ensures { result.now ≡ drop count row.now }
{
    if row.len() < count {
        return &[];
    }
    let (_, rest) = row.split_at(count);
    rest
}
