//! Which texts are wanted, and in which files.
ghost use Rattle.std.specs.Prelude.{◌≡◌};
ghost use Rattle.cps_words.specs.Code.Steps.{last_first};

use cps_list::Part;

/// The names of the files that texts of a source, and its page, are wanted in, None where one isn't wanted.
#[derive(Clone, Copy)]
pub struct Outputs<'a> {
    pub listing: Option<&'a str>,
    pub binary: Option<&'a str>,
    pub symbols: Option<&'a str>,
    pub flags: Option<&'a str>,
    pub page: Option<&'a str>,
}

/// What goes into a file: a text of a source, or a page that was made of it.
#[derive(Clone, Copy)]
pub enum FileText<'a> {
    Part(Part),
    Page(&'a [u8]),
}

/// A text, and the name of the file that it is wanted in, None where it isn't wanted.
#[derive(Clone, Copy)]
pub struct FileOutput<'a, 'p> {
    pub text: FileText<'p>,
    pub name: Option<&'a str>,
}

impl<'a> Outputs<'a> {
    /// Of no text, and no page.
    pub fn none() -> Outputs<'a> {
        Outputs {
            listing: None,
            binary: None,
            symbols: None,
            flags: None,
            page: None,
        }
    }

    /// This page and the four texts, the last one first.
    pub(crate) fn last_first<'p>(self, page: &'p [u8]) -> [FileOutput<'a, 'p>; 5]
        ensures { result ≡ last_first page.entry self.entry }
    {
        [
            FileOutput {
                text: FileText::Page(page),
                name: self.page,
            },
            FileOutput {
                text: FileText::Part(Part::Flags),
                name: self.flags,
            },
            FileOutput {
                text: FileText::Part(Part::Symbols),
                name: self.symbols,
            },
            FileOutput {
                text: FileText::Part(Part::Binary),
                name: self.binary,
            },
            FileOutput {
                text: FileText::Part(Part::Listing),
                name: self.listing,
            },
        ]
    }
}
