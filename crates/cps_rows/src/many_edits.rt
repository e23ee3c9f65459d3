//! A thousand edits of all kinds in two sessions of a few lines, and a thousand and twenty in six of some chunks of lines: after each the
//! texts of the session are those of batch assembly.
use super::assembling::assemble;
use super::edit_rows::{Edit, carry_out};
use super::text_assertions::{assert_row, assert_same};
use cps_list::Part;
use cps_live::Session;
use cps_state::{Hashing, Work};
use std::alloc::{AllocError, Global};
use std::process::Abort;

/// What edits enter for either machine: statements that use symbols, values of SET, blocks, macros, ranges and repetitions, and
/// many that end these.
const LINES: [&[u8]; 31] = [
    b"* COMMENT",
    b"         IDENT   T1",
    b"B        CON     A,N,*",
    b"         CON     K,S",
    b"N        SET     1",
    b"N        SET     N+1",
    b"S        SET     *",
    b"K        EQU     2",
    b"         BSS     K",
    b"B        BSS     1",
    b"         USE     W",
    b"         USE",
    b"         USE     *",
    b"         ORG     A+10B",
    b"M        MACRO   P",
    b"         CON     P,N",
    b"         ENDM",
    b"         ENDM",
    b"         ENDM",
    b"A        M       B",
    b"         IFEQ    N,1",
    b"         IF      DEF,B,2",
    b"         IFEQ    *-*,0,1",
    b"         ELSE",
    b"         ENDIF",
    b"         ENDIF",
    b"         ENDIF",
    b"         DUP     2,1",
    b"         DUP     K",
    b"         ENDD",
    b"         ENDD",
];

/// What edits enter in a long source. More lines end a body or a range than begin one, so that few lines stand in one; and symbols are read
/// far above and far below the lines that give them values.
const LONG_LINES: [&[u8]; 38] = [
    b"* COMMENT",
    b"         USE     W",
    b"         USE     V",
    b"         USE",
    b"         USE     *",
    b"         ORG     A+10B",
    b"A        CON     B,N,*",
    b"B        CON     A,N,*",
    b"         CON     C-A,T",
    b"         CON     K,S",
    b"         CON     LAST",
    b"LAST     BSS     1",
    b"N        SET     1",
    b"N        SET     N+1",
    b"S        SET     *",
    b"T        SET     S",
    b"K        EQU     2",
    b"K        EQU     3",
    b"         BSS     K",
    b"C        BSS     1",
    b"M        MACRO   P",
    b"         CON     P,N",
    b"         ENDM",
    b"         ENDM",
    b"         ENDM",
    b"         ENDM",
    b"         ENDM",
    b"A        M       B",
    b"         IFEQ    N,1",
    b"         IF      DEF,B,2",
    b"         IFEQ    *-*,0,1",
    b"         ELSE",
    b"         ENDIF",
    b"         ENDIF",
    b"         ENDIF",
    b"         ENDIF",
    b"         DUP     2,1",
    b"         DUP     K,2",
];

/// Instructions of the central processor, with literals.
const CENTRAL: [&[u8]; 7] = [
    b"         NO",
    b"A        SA1     B",
    b"         SA2     =1",
    b"         SX1     =2",
    b"         EQ      A",
    b"         SA1     P",
    b"         VFD     30/B,15/S",
];

/// Those of the peripheral processors.
const PERIPHERAL: [&[u8]; 7] = [
    b"         PSN",
    b"A        LDM     B",
    b"         LDC     =1",
    b"         LDM     =2",
    b"         UJN     A",
    b"         LJM     P",
    b"         VFD     6/B,18/S",
];

/// Numbers that follow one another by a fixed rule.
#[derive(Clone, Copy)]
pub struct Numbers {
    pub last: u32,
}

impl Numbers {
    /// The next number, below a bound.
    pub fn below(&mut self, bound: u32) -> u32 {
        self.last = self
            .last
            .wrapping_mul(1_664_525)
            .wrapping_add(1_013_904_223);
        (self.last >> 16).checked_rem(bound).unwrap_or(0)
    }
}

/// The edits of a session that begins with this line, which stays, and with so many behind it.
#[derive(Clone, Copy)]
struct Course {
    first: &'static [u8],
    entered: u32,
    edits: usize,
    /// At so many lines none is inserted.
    most: u32,
    /// Below so many lines none is deleted. A deletion takes at most three.
    least: u32,
    /// A move takes so many lines at most.
    carried: u32,
    numbers: Numbers,
    lines: &'static [&'static [u8]],
    instructions: [&'static [u8]; 7],
}

impl Course {
    /// A line to be entered.
    fn line(&mut self) -> &'static [u8] {
        let few = self.lines.len().min(1_000);
        let at = self.numbers.below(few as u32 + 7) as usize;
        match self.lines.get(at) {
            Some(line) => *line,
            None => self.instruction(at.saturating_sub(few)),
        }
    }

    fn instruction(&self, at: usize) -> &'static [u8] {
        self.instructions.get(at).copied().unwrap_or(b"")
    }

    /// The next edit of a source of so many lines. It may be one that is refused.
    fn edit(&mut self, count: u32) -> Edit {
        let after = self.numbers.below(count).saturating_add(1);
        let at = after.saturating_add(1);
        match self.numbers.below(10) {
            0..=3 if count < self.most => Edit::Insert(after, self.line()),
            0..=5 => Edit::Replace(at, self.line()),
            6..=7 => self.moved(at, count),
            _ if count < self.least => Edit::Insert(after, self.line()),
            _ => Edit::Delete(at, at.saturating_add(self.numbers.below(3))),
        }
    }

    /// A move of some lines.
    fn moved(&mut self, first: u32, count: u32) -> Edit {
        let carried = self.carried;
        let last = first.saturating_add(self.numbers.below(carried));
        Edit::Move(first, last, self.numbers.below(count).saturating_add(1))
    }
}

/// The bytes of a session's lines.
fn source_of(alloc: Global, session: &Session) -> Result<Vec<u8>, AllocError> {
    let mut source = Vec::new(alloc);
    for n in 1..=session.count() {
        if let Some(line) = session.line(n) {
            source.extend_from_slice(line.bytes())?;
            source.push(b'\n')?;
        }
    }
    Ok(source)
}

/// Asserts that the texts of a session are those that batch assembly writes of its lines.
pub fn assert_as_batch(rt: &impl Abort, alloc: Global, at: usize, session: &Session) {
    let source = source_of(alloc, session).unwrap_or_else(|_| Vec::new(alloc));
    let want = assemble(alloc, &source, Part::All);
    let want = str::from_utf8(&want).unwrap_or("");
    let got = session
        .text(alloc, Part::All)
        .unwrap_or_else(|_| Vec::new(alloc));
    assert_row(rt, at, "of a session", &got, want);
}

/// Enters the lines of a course that stand behind the first one.
fn enter_lines(alloc: Global, session: &mut Session, course: &mut Course) {
    for _ in 0..course.entered {
        let edit = Edit::Insert(session.count(), course.line());
        let _ = carry_out(alloc, session, &mut Work::new(), &edit);
    }
}

/// Makes the edits in a session, and asserts its texts after each. How many steps of pass one they take.
fn assert_edits(rt: &impl Abort, alloc: Global, session: &mut Session, course: &mut Course) -> u64 {
    let mut work = Work::new();
    for at in 0..course.edits {
        let edit = course.edit(session.count());
        let _ = carry_out(alloc, session, &mut work, &edit);
        assert_as_batch(rt, alloc, at, session);
    }
    work.ones()
}

/// Asserts that in a session of a course the texts are those of batch assembly after each edit. How many lines are left, and how many
/// steps of pass one the edits take.
fn assert_course(rt: &impl Abort, alloc: Global, course: Course) -> (u32, u64) {
    let mut course = course;
    let mut session = Session::new(alloc, Hashing::by(1));
    let first = Edit::Insert(0, course.first);
    let _ = carry_out(alloc, &mut session, &mut Work::new(), &first);
    enter_lines(alloc, &mut session, &mut course);
    let steps = assert_edits(rt, alloc, &mut session, &mut course);
    let left = session.count();
    drop(session);
    (left, steps)
}

/// A course of so many edits in a source of up to 20 lines.
fn short(
    first: &'static [u8],
    edits: usize,
    last: u32,
    instructions: [&'static [u8]; 7],
) -> Course {
    Course {
        first,
        entered: 0,
        edits,
        most: 20,
        least: 0,
        carried: 3,
        numbers: Numbers { last },
        lines: &LINES,
        instructions,
    }
}

#[test]
fn edits_of_a_central_program_go_as_batch(rt: HostRuntime) {
    let course = short(b"         ABS", 100, 2, CENTRAL);
    let (left, _) = assert_course(&rt, rt.alloc(), course);
    assert_same(&rt, "lines", &left, &11);
}

#[test]
fn edits_of_a_peripheral_program_go_as_batch(rt: HostRuntime) {
    let course = short(b"         PERIPH", 900, 1, PERIPHERAL);
    let (left, _) = assert_course(&rt, rt.alloc(), course);
    assert_same(&rt, "lines", &left, &14);
}

/// The most lines that a move takes, the number that the others follow from, and how many lines are left.
type Moves = (u32, u32, u32);

const OF_A_FEW: Moves = (3, 1, 338);

const OF_A_CHUNK: Moves = (70, 2, 359);

const OF_MANY_CHUNKS: Moves = (300, 3, 332);

/// Makes 170 edits in a source of 300 to 360 lines, which stand in five chunks at least, since none has more than 64. Ten lines or more are
/// stepped by an edit on an average: edits reach far.
fn assert_long(
    rt: &impl Abort,
    alloc: Global,
    first: &'static [u8],
    instructions: [&'static [u8]; 7],
    moves: Moves,
) {
    let (carried, last, left) = moves;
    let course = Course {
        first,
        entered: 329,
        edits: 170,
        most: 360,
        least: 303,
        carried,
        numbers: Numbers { last },
        lines: &LONG_LINES,
        instructions,
    };
    let (count, steps) = assert_course(rt, alloc, course);
    assert_same(rt, "lines", &count, &left);
    assert_same(rt, "ten steps an edit", &(steps >= 1_700), &true);
}

#[test]
fn moves_of_a_few_lines_in_a_long_central_program(rt: HostRuntime) {
    assert_long(&rt, rt.alloc(), b"         ABS", CENTRAL, OF_A_FEW);
}

#[test]
fn moves_of_a_chunk_in_a_long_central_program(rt: HostRuntime) {
    assert_long(&rt, rt.alloc(), b"         ABS", CENTRAL, OF_A_CHUNK);
}

#[test]
fn moves_of_many_chunks_in_a_long_central_program(rt: HostRuntime) {
    assert_long(&rt, rt.alloc(), b"         ABS", CENTRAL, OF_MANY_CHUNKS);
}

#[test]
fn moves_of_a_few_lines_in_a_long_peripheral_program(rt: HostRuntime) {
    assert_long(&rt, rt.alloc(), b"         PERIPH", PERIPHERAL, OF_A_FEW);
}

#[test]
fn moves_of_a_chunk_in_a_long_peripheral_program(rt: HostRuntime) {
    assert_long(&rt, rt.alloc(), b"         PERIPH", PERIPHERAL, OF_A_CHUNK);
}

#[test]
fn moves_of_many_chunks_in_a_long_peripheral_program(rt: HostRuntime) {
    assert_long(
        &rt,
        rt.alloc(),
        b"         PERIPH",
        PERIPHERAL,
        OF_MANY_CHUNKS,
    );
}
