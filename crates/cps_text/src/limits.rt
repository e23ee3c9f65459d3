//! The limits of a source and of an assembly, each once. All but those of words are this assembler's own.

/// The most lines of a source.
pub const MOST_LINES: usize = 99_999;

/// The most characters of a line, and of a statement of an expansion.
pub const MOST_CHARACTERS: usize = 90;

/// The most statements that a source line opens, at all depths.
pub const MOST_STATEMENTS: usize = 20_000;

/// The greatest depth of a statement of an expansion; a source line stands at 0.
pub const DEEPEST: u8 = 10;

/// The most lines of the body of a DUP or of a macro, and the most that a DUP may count.
pub const MOST_BODY_LINES: u32 = 500;

/// The most repetitions of a DUP.
pub const MOST_TIMES: u64 = 1_000;

/// The most ranges that are open at once, a skipped one too.
pub const MOST_RANGES: usize = 20;

/// The most lines that an IF may count.
pub const MOST_COUNTED_LINES: u64 = 9_999;

/// The most named blocks of a program.
pub const MOST_BLOCKS: u32 = 64;

/// The most blocks that USE left and that `USE *` may go back to.
pub const MOST_LEFT_BLOCKS: usize = 64;

/// The most names that are generated for the local names of macros' calls.
pub const MOST_GENERATED: u32 = 9_999_999;

/// The most words that a DIS may count.
pub const MOST_COUNTED_WORDS: u8 = 100;

/// The most lines of a chunk of a session's source.
pub const MOST_CHUNK_LINES: usize = 64;

/// The most bytes of a line of a script, without the carriage return.
pub const MOST_COMMAND_BYTES: usize = 200;

/// The most reads of an input.
pub const MOST_READS: u64 = 16_777_216;
