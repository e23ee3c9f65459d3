//! The kinds of elements.
ghost use Rattle.std.specs.Prelude.{◌≡◌, ◌++◌, codes};
ghost use Rattle.cps_markup.specs.Markup.{closing, tag_name};

/// A kind of element.
#[derive(Clone, Copy, PartialEq, Eq)]
pub enum Tag {
    Section,
    Heading,
    Row,
    Part,
    Link,
    /// What stands beside a text.
    Note,
    /// What stands before the source in a row of the listing.
    Front,
    /// Rows that can be folded, behind a summary.
    Fold,
    Summary,
}

impl Tag {
    /// The begin, up to where its attributes come.
    pub fn begin(self) -> &'static [u8]
        ensures { result.now ≡ codes "<" ++ tag_name self }
    {
        match self {
            Tag::Section => b"<section",
            Tag::Heading => b"<h2",
            Tag::Row => b"<div",
            Tag::Part => b"<i",
            Tag::Link => b"<a",
            Tag::Note => b"<small",
            Tag::Front => b"<span",
            Tag::Fold => b"<details",
            Tag::Summary => b"<summary",
        }
    }

    /// The end.
    pub fn end(self) -> &'static [u8]
        ensures { result.now ≡ closing self }
    {
        match self {
            Tag::Section => b"</section>",
            Tag::Heading => b"</h2>",
            Tag::Row => b"</div>",
            Tag::Part => b"</i>",
            Tag::Link => b"</a>",
            Tag::Note => b"</small>",
            Tag::Front => b"</span>",
            Tag::Fold => b"</details>",
            Tag::Summary => b"</summary>",
        }
    }
}
