//! The lines of a draft, as they are written.
use super::characters::ZERO;
use super::draft::Draft;
use super::image::Image;
use super::number::push_decimal;
use cps_text::push_octal;
use std::alloc::{AllocError, Global};

/// How many characters stand in front of the operation, of the operands and of a comment.
const OPERATION: usize = 10;

const OPERANDS: usize = 17;

const COMMENT: usize = 40;

/// The most characters of a line.
const MOST: usize = 72;

/// The lines of a draft, and the one that is being written.
#[derive(Drop)]
pub struct Lines {
    draft: Draft,
    line: Vec<u8>,
    /// Where its comment begins.
    comment: Option<usize>,
    is_bare: bool,
    /// How many bits of a word the lines left begun.
    pub begun: u8,
    /// Whether a forcing waits.
    pub is_pending: bool,
}

impl Lines {
    pub fn new(alloc: Global, is_bare: bool) -> Lines {
        Lines {
            draft: Draft {
                text: Vec::new(alloc),
                words: Vec::new(alloc),
            },
            line: Vec::new(alloc),
            comment: None,
            is_bare,
            begun: 0,
            is_pending: false,
        }
    }

    /// The draft of all lines that were ended.
    pub fn into_draft(self) -> Draft {
        let Lines {
            draft,
            line: _,
            comment: _,
            is_bare: _,
            begun: _,
            is_pending: _,
        } = self;
        draft
    }

    /// Begins a line with a location field and an operation. Its operands are written behind it.
    pub fn begin(&mut self, location: &[u8], operation: &[u8]) -> Result<(), AllocError> {
        self.begin_with(location, operation, None)
    }

    /// The same with the digit of a register behind the operation.
    pub fn begin_with(
        &mut self,
        location: &[u8],
        operation: &[u8],
        digit: Option<u8>,
    ) -> Result<(), AllocError> {
        self.line.clear();
        self.line.push(b' ')?;
        self.line.extend_from_slice(location)?;
        self.line.push(b' ')?;
        self.pad(OPERATION)?;
        self.line.extend_from_slice(operation)?;
        if let Some(digit) = digit {
            push_decimal(&mut self.line, usize::from(digit))?;
        }
        self.line.push(b' ')?;
        self.pad(OPERANDS)
    }

    /// What is written of the line: what is appended goes behind it.
    pub fn text(&mut self) -> &mut Vec<u8> {
        &mut self.line
    }

    /// Ends the operands. What is written behind them is a comment.
    pub fn begin_comment(&mut self) -> Result<(), AllocError> {
        self.comment = Some(self.line.len());
        self.line.push(b' ')?;
        self.pad(COMMENT)
    }

    /// A line that is a comment, if lines have comments.
    pub fn remark(&mut self, words: &[u8]) -> Result<(), AllocError> {
        self.begin_remark()?;
        self.line.extend_from_slice(words)?;
        self.end_remark()
    }

    /// Begins a line that is a comment.
    pub fn begin_remark(&mut self) -> Result<(), AllocError> {
        self.line.clear();
        self.line.push(b'*')?;
        self.pad(OPERATION)
    }

    /// Ends a line that is a comment; it stands there if lines have comments.
    pub fn end_remark(&mut self) -> Result<(), AllocError> {
        if self.is_bare {
            return Ok(());
        }
        self.end(None)
    }

    /// From now on no word is begun.
    pub fn begin_word(&mut self) {
        self.begun = 0;
        self.is_pending = false;
    }

    /// Appends to the line an address of an image.
    pub fn push_address(&mut self, image: &Image<'_>, address: u32) -> Result<(), AllocError> {
        push_octal(&mut self.line, u64::from(address), image.address_digits())
    }

    /// Ends the operands, and begins a comment with an address of an image.
    pub fn begin_comment_at(&mut self, image: &Image<'_>, address: u32) -> Result<(), AllocError> {
        self.begin_comment()?;
        self.push_address(image, address)
    }

    /// Appends to the comment the characters of a word, zeros as blanks.
    pub fn push_shown(&mut self, characters: &[u8]) -> Result<(), AllocError> {
        for byte in characters {
            self.line.push(if *byte == ZERO { b' ' } else { *byte })?;
        }
        Ok(())
    }

    /// How many characters of the line are written.
    pub fn len(&self) -> usize {
        self.line.len()
    }

    /// Ends a line, which makes the word at an address, or none.
    pub fn end(&mut self, address: Option<u32>) -> Result<(), AllocError> {
        if self.is_bare
            && let Some(comment) = self.comment
        {
            self.line.truncate(comment);
        }
        self.comment = None;
        self.line.truncate(MOST);
        let filled = self.line.trim_ascii_end().len();
        self.line.truncate(filled);
        self.draft.text.extend_from_slice(&self.line)?;
        self.draft.text.push(b'\n')?;
        self.draft.words.push(address)?;
        Ok(())
    }

    fn pad(&mut self, width: usize) -> Result<(), AllocError> {
        if self.line.len() < width {
            self.line.resize(width, b' ')?;
        }
        Ok(())
    }
}
