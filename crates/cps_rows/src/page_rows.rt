//! The page of a source.
use super::part_rows::enter_source;
use super::text_assertions::assert_row;
use cps_live::Session;
use cps_page::{
    Beside, Block, BlockName, Cause, CodeNote, Form, Frame, LineLook, MeantColumns, OperandColumns,
    make_page,
};
use cps_state::Hashing;
use cps_text::Name;
use std::alloc::{AllocError, Global};

const PROGRAM: &str = "         IDENT   T1
         ABS
         ORG     100B
START    SA1     B1+3
         EQ      START
* <&>
         END
";

/// Lines lead to themselves, a symbol in the location field to its row, one that is read to its definition, an address to its word where that begins, a word
/// to its first line, and each digit of it to the line that made it. A digit of a code and the operand that makes it look alike. A code is shifted to its place in
/// its word, and what a cause means has a wavy line. What stands beside the texts is in notes.
const PAGE: &str = "<T1|<section id=\"memory\"><h2>Memory</h2>\
<small class=\"t\">central processor, 7 lines, 1 word, 1 symbol, 0 flagged lines</small>\
<small class=\"t\">nominal   000100    2 words       ...............................................#</small>\
</section><section id=\"listing\"><h2>Listing</h2><div class=\"run\" style=\"--n:7\">\
<div id=\"1\"><div><span>                                          <a href=\"#1\">1</a> </span>         IDENT   T1</div>
</div><div id=\"2\"><div><span>                                          <a href=\"#2\">2</a> </span>         ABS</div>
</div><div id=\"3\"><div><span>         <i class=\"z\"><a href=\"#w100\">000100</a></i>                           <a href=\"#3\">3</a> </span>         ORG     100B</div>
</div><div id=\"4\"><div><span>         <a href=\"#w100\">000100</a> 51<i class=\"i\">1</i><i class=\"j\">1</i><i class=\"K\">000003</i>                <a href=\"#4\">4</a> </span>\
<a href=\"#START\">START</a>    <i title=\"&lt;set&gt;\">SA</i><i class=\"i\">1</i>     <i class=\"j\">B1</i>+<i class=\"K\">3</i></div>
</div><div id=\"5\"><div><span>         <i class=\"z\">000100</i> <i class=\"s10\">0400000100           </i>     <a href=\"#5\">5</a> </span>         EQ      <i class=\"u\"><a href=\"#4\">START</a></i></div>
<small class=\"c\">U a &amp; b</small></div><div id=\"6\"><div><span>                                          <a href=\"#6\">6</a> </span><i class=\"x\">* &lt;&amp;&gt;</i></div>
</div><div id=\"7\"><div><span>                                          <a href=\"#7\">7</a> </span>         END</div>
</div></div></section><section id=\"words\"><h2>Words</h2><div>IDENT T1</div>
<div id=\"w100\"><div><i class=\"z\"><a href=\"#4\">000100</a></i> <a href=\"#4\">5111000003</a><a href=\"#5\">0400000100</a><small class=\"z\">START    SA1 B1+3 | EQ START</small></div>
</div></section><section id=\"symbols\"><h2>Symbols</h2><div id=\"START\"><div><a href=\"#4\">START</a>    <i class=\"z\">00000000000000000100 </i><a href=\"#4\">4</a> <a href=\"#5\">5</a></div>
</div></section><section id=\"flags\"><h2>Flags</h2><div>0 flagged lines</div>
</section><section id=\"instructions\"><h2>Instructions</h2>\
<small class=\"t\">SAi    Bj+K       51ijKKKKKK  1        &lt;set&gt;</small></section>>";

/// A text of its own.
fn text(alloc: Global, words: &[u8]) -> Result<Vec<u8>, AllocError> {
    let mut text = Vec::new(alloc);
    text.extend_from_slice(words)?;
    Ok(text)
}

/// A code in the first row of a line, of which nothing is told.
fn code_note(line: u32) -> CodeNote {
    CodeNote {
        line,
        row: 0,
        form: None,
        shift: 0,
        operand: OperandColumns {
            before: 0,
            behind: 0,
        },
    }
}

/// Of the fourth line its form, of the fifth its place and a cause, and a block.
fn beside(alloc: Global) -> Result<Beside, AllocError> {
    let mut beside = Beside::nothing(alloc);
    beside.forms.push(Form {
        name: text(alloc, b"SAi")?,
        operands: text(alloc, b"Bj+K")?,
        code: text(alloc, b"51ijKKKKKK")?,
        sentence: text(alloc, b"<set>")?,
        count: 1,
    })?;
    beside.codes.push(CodeNote {
        form: Some(0),
        ..code_note(4)
    })?;
    beside.codes.push(CodeNote {
        shift: 10,
        ..code_note(5)
    })?;
    beside.meant.push(MeantColumns {
        before: 17,
        behind: 22,
    })?;
    beside.causes.push(Cause {
        line: 5,
        letter: b'U',
        statement: Vec::new(alloc),
        words: text(alloc, b"a & b")?,
    })?;
    beside.blocks.push(Block {
        name: BlockName::Nominal,
        address: 64,
        words: 2,
    })?;
    Ok(beside)
}

/// The page of a session between `<`, `|` and `>`, with this beside it.
fn page_with(
    alloc: Global,
    session: &Session,
    told: Result<Beside, AllocError>,
) -> Result<Vec<u8>, AllocError> {
    let beside = told?;
    let frame = Frame {
        front: b"<",
        middle: b"|",
        back: b">",
    };
    make_page(alloc, session, &beside, &frame)
}

/// The page of a source, with this beside it. It is empty where there is no memory.
fn page_told(alloc: Global, source: &str, told: Result<Beside, AllocError>) -> Vec<u8> {
    let mut session = Session::new(alloc, Hashing::by(1));
    enter_source(alloc, &mut session, source);
    let page = page_with(alloc, &session, told);
    drop(session);
    page.unwrap_or(Vec::new(alloc))
}

/// The page of a source.
fn page_of(alloc: Global, source: &str) -> Vec<u8> {
    page_told(alloc, source, beside(alloc))
}

#[test]
fn makes_a_page(rt: HostRuntime) {
    assert_row(&rt, 0, "a page", &page_of(rt.alloc(), PROGRAM), PAGE);
}

/// The line of a page that begins so.
fn line_of<'a>(page: &'a [u8], begin: &[u8]) -> &'a [u8] {
    for line in page.split(|byte| *byte == b'\n') {
        if line.starts_with(begin) {
            return line;
        }
    }
    b""
}

/// A symbol's place is its own row, though one stands before it that no line defines.
#[test]
fn places_a_symbol_at_its_row(rt: HostRuntime) {
    let page = page_of(rt.alloc(), "B        BSS     1\n         SA1     A\n");
    let expected =
        "<div id=\"B\"><div><a href=\"#1\">B</a>        <i class=\"z\">00000000000000000000 </i><a href=\"#1\">1</a></div>";
    assert_row(
        &rt,
        0,
        "the row of B",
        line_of(&page, b"<div id=\"B\">"),
        expected,
    );
}

/// A row of a field of 54 bits behind one of six, told with its place and its operand.
fn beside_fields(alloc: Global) -> Result<Beside, AllocError> {
    let mut beside = Beside::nothing(alloc);
    beside.codes.push(CodeNote {
        row: 1,
        shift: 2,
        operand: OperandColumns {
            before: 21,
            behind: 25,
        },
        ..code_note(1)
    })?;
    Ok(beside)
}

/// A later row has its operand in a note, in the columns of its statement; no word begins there.
#[test]
fn shows_the_operand_of_a_later_row(rt: HostRuntime) {
    let alloc = rt.alloc();
    let page = page_told(alloc, "         VFD     6/1,54/2\n", beside_fields(alloc));
    let expected =
        "<div><span>         <i class=\"z\">000000</i> <i class=\"s2\">000000000000000002</i></span>\
<small class=\"o\">                     54/2</small></div>";
    assert_row(
        &rt,
        0,
        "the second field",
        line_of(&page, b"<div><span>"),
        expected,
    );
}

/// A block, the form of the second line, and a fifth line that is skipped.
fn beside_block(alloc: Global) -> Result<Beside, AllocError> {
    let mut beside = beside(alloc)?;
    beside.causes.clear();
    beside.codes.clear();
    beside.codes.push(CodeNote {
        form: Some(0),
        ..code_note(2)
    })?;
    if let Some(name) = Name::read(b"DATA") {
        beside.blocks.push(Block {
            name: BlockName::Named(name),
            address: 2,
            words: 1,
        })?;
    }
    beside.looks.push(LineLook::Plain)?;
    beside.looks.push(LineLook::Plain)?;
    beside.looks.push(LineLook::Plain)?;
    beside.looks.push(LineLook::InBlock)?;
    beside.looks.push(LineLook::Skipped)?;
    Ok(beside)
}

const BLOCKS: &str = "* HEAD
         SA1     =5
         USE     DATA
         CON     1
         SA2     X1
";

/// How the rows of these lines end: a literal leads to its word, the operand of USE to its block, a stripe stands beside an address in a block, and a skipped
/// line is grey.
const BLOCK_ROWS: [(&str, &str); 4] = [
    (
        "</div><div id=\"2\">",
        "<i class=\"i\">1</i>     <i class=\"K\"><a href=\"#w1\">=5</a></i></div>",
    ),
    (
        "</div><div id=\"3\">",
        "</span>         USE     <a href=\"#b-DATA\">DATA</a></div>",
    ),
    (
        "</div><div id=\"4\">",
        "<span class=\"b\">         <a href=\"#w2\">000002</a> 00000000000000000001      <a href=\"#4\">4</a> </span>         CON     1</div>",
    ),
    (
        "</div><div id=\"5\">",
        "</span><i class=\"x\">         SA2     X1</i></div>",
    ),
];

#[test]
fn leads_to_a_block_and_a_literal(rt: HostRuntime) {
    let alloc = rt.alloc();
    let page = page_told(alloc, BLOCKS, beside_block(alloc));
    for (begin, end) in BLOCK_ROWS {
        let row = line_of(&page, begin.as_bytes());
        let place = row.len().saturating_sub(end.len());
        assert_row(&rt, 0, begin, row.split_at(place).1, end);
    }
}
