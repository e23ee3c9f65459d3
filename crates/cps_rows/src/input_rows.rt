//! What is wrong with the lines of a source that is read.
use super::assertions::assert_row;
use cps_input::{InputFault, read_lines};
use cps_text::Counted;

/// A line of so many bytes is filled with asterisks, which any line may have.
const FULL: usize = 90;

fn bad(line: u32, column: usize) -> Option<InputFault> {
    Some(InputFault::BadCharacter { line, column })
}

/// The first line that no source may have decides, and of it the first byte that no line may have. Of one line its length goes before its bytes.
#[test]
fn tells_the_column_of_a_bad_character(rt: HostRuntime) {
    let mut last = [b'*'; FULL];
    last[FULL - 1] = b'~';
    let mut long = [b'*'; FULL + 1];
    long[0] = b'~';
    let rows: [(&[u8], Option<InputFault>); 11] = [
        (b"", None),
        (b"*\n          SX1    1\n", None),
        // column 1, and one more behind it
        (b"\t\tX", bad(1, 1)),
        // behind ten blanks and an operation of three letters, and one more behind it
        (b"*\n          SX1\t1\t\n", bad(2, 14)),
        // the last column that a line has
        (&last, bad(1, 90)),
        // a character of two bytes, the first of which is in column 4
        (b"* A\xC3\xA9", bad(1, 4)),
        // a byte that is no UTF-8
        (b"AB\xFF", bad(1, 3)),
        // the first of two carriage returns stays in its line
        (b"A\r\r\n", bad(1, 2)),
        // the end of a line that has none
        (b"\n\n*\x1A", bad(3, 2)),
        // the first of two wrong lines
        (b"*}\n{\n", bad(1, 2)),
        // too long, with one in column 1
        (&long, Some(InputFault::LineTooLong(1))),
    ];
    for (at, (source, want)) in rows.iter().enumerate() {
        let mut reader = Counted::new(*source);
        let fault = read_lines(rt.alloc(), &mut reader).err();
        assert_row(&rt, at, &fault, want);
    }
}
