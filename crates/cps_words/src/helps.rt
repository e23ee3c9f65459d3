//! What the helps say.

pub const ABOUT: &str = "A cross-assembler for COMPASS Version 3 of the CDC 6000 series";

pub const MORE: &str = "\
A source (batch, check, compare) or an octal text (disassemble) is read from a
file or from standard input, a script (session) or what an editor sends (server)
from standard input, and what is asked for is written to standard output; batch
also writes texts into files.
'compass COMMAND --help' says more.

Exit status:
  0  no line is flagged, and no word differs (compare)
  1  a line is flagged, a range is open at the end, a word differs (compare), or
     an editor ends without a shutdown (server)
  2  a fault, which is said on standard error";

pub const BATCH_ABOUT: &str = "Assemble a source";

pub const BATCH_MORE: &str = "\
The source is read from FILE, and its PART is written to standard output:
  listing  the listing
  binary   the binary text: octal words by address
  symbols  the cross-reference of the symbols
  flags    the flagged lines, and their count
  all      these four, in this order

--listing, --binary, --symbols and --flags write a text into a file of its own,
which then has the whole text, or stays as it was. --page writes a page of HTML
with all four, for a browser. Beside them nothing goes to standard output but a
PART that --part names.

Exit status:
  0  no line is flagged
  1  a line is flagged, or a range is open at the end
  2  a fault, which is said on standard error";

pub const SESSION_ABOUT: &str = "Edit a source line by line, and ask for its texts";

pub const SESSION_MORE: &str = "\
The session begins with the lines of the file that --source names, or with none.
A script is read from standard input, a command on each line. The reply to each
is written to standard output before the next line is read:
  a TEXT    append TEXT after the last line
  i N TEXT  insert TEXT after line N, 0 for the front
  r N TEXT  replace line N by TEXT
  d N [M]   delete line N, or lines N to M
  m A B C   move lines A to B after line C, 0 for the front
  list      write the listing
  binary    write the binary text: octal words by address
  symbols   write the cross-reference of the symbols
  flags     write the flagged lines, and their count
  work      write the steps of each pass at the latest edit
  quit      end the session, as the end of the script does
An edit is answered by 'ok' and the number of lines, and a command that is
refused by the cause. Bytes that were read along with 'quit' are dropped.

Exit status:
  0  at the end no line is flagged
  1  at the end a line is flagged, or a range is open
  2  a fault, which is said on standard error";

pub const CHECK_ABOUT: &str = "Tell what is wrong in a source";

pub const CHECK_MORE: &str = "\
The source is read from FILE. For each flag of a line, and for each byte that no
line may have, is written where that is and what is wrong:
  deck.cps:3:19: error: U: no line gives LOOPS a value; it counts as 0
      3 |           SA1     LOOPS
        |                   ^^^^^
Behind the name of the file stand the number of the line and the column. A note
is told of what has no flag and is often not meant, as a symbol that no line
reads; it changes no status, and --errors leaves it out.

Exit status:
  0  no line is flagged, or has such a byte
  1  a line is flagged or has one, or a range is open at the end
  2  a fault, which is said on standard error";

pub const COMPARE_ABOUT: &str = "Compare the words of a source with an octal listing or dump";

pub const COMPARE_MORE: &str = "\
The source is read from FILE. Each octal digit that OCTAL gives for a word is
compared with that of the source's binary text. Where one differs both words are
written, with the lines of the source that made it; and at the end what was
compared, and what OCTAL has that wasn't read.

OCTAL is a listing of COMPASS, a dump, or words that were typed:
  000104  51300 00026 21263    an address, and digits behind it
          1??00                digits without one go on in the word before
An address has 1 to 6 octal digits, and perhaps a colon or B. The digits stand
in groups of whole parcels, of 5 digits; for a peripheral processor of whole
words, of 4. The marks ?, . and _ are digits that nobody can read. A row that
looks like digits and fits no rule isn't read, which is told. Other text, as a
heading, is passed over.

  --format dump  a row has whole words, one without an address the next ones; a
                 row '*', or that begins with DUPL, REPEAT or SAME, says that
                 the words before stand again, up to the next address
  --format own   a listing of this program, compared with the source's: each
                 digit of columns 17-36, at the address in 10-15
  --columns F-L  the columns of the address and the digits, where rows have
                 other numbers
  --offset N     for a text whose addresses are N too low, or by --offset=-N
                 too high
  --whole        a word that OCTAL lacks, or gives in part, differs; without
                 --from and --to that is each of the source
  --all          each word that differs is told, and each row that isn't read;
                 else some of many are counted

Exit status:
  0  a known digit was compared, and each that OCTAL gives between the limits
     agrees; with --whole nothing lacks
  1  a word differs
  2  a fault, which is said on standard error, also that nothing is compared";

pub const DISASSEMBLE_ABOUT: &str = "Make a source for the words of an octal listing or dump";

pub const DISASSEMBLE_MORE: &str = "\
OCTAL is read as 'compass compare' reads it, whose help says how. A source is
made and assembled. It is written to standard output only where no line of it is
flagged, each octal digit that OCTAL gives for a word is that of its binary
text, and this has no other word.

--central and --peripheral name the machine; without them the rows of OCTAL tell
it. --from and --to take the words from address A to address B alone.

What is code, what is data and what has a name is guessed, and may be told:
  --entry LIST   execution begins at these addresses: what is reached from there
                 is code, and END names the first
  --code LIST    these words are code, but for those with digits not known
  --data LIST    these words are data, also where --code has them
  --names FILE   each row of FILE that begins with a symbol and an octal value
                 names that address, as 'batch --symbols' writes them
  --ident NAME   the name in IDENT, else that in a first row 'IDENT NAME' of
                 OCTAL, else DUMP
  --bare         no comments

  --format dump  a row has whole words, one without an address the next ones; a
                 row '*', or that begins with DUPL, REPEAT or SAME, says that
                 the words before stand again, up to the next address
  --columns F-L  the columns of the address and the digits, where rows have
                 other numbers

Exit status:
  0  the source is written
  2  no source is made, or a fault, which is said on standard error";

pub const EXPLAIN_ABOUT: &str = "Explain a flag or an operation";

pub const EXPLAIN_MORE: &str = "\
WORD is the letter of a flag, as A, or the name of an operation, as VFD. What it
means is written to standard output.

Exit status:
  0  WORD is explained
  2  there is no such flag or operation, or a fault, which is said on standard
     error";

pub const SERVER_ABOUT: &str = "Answer an editor by the Language Server Protocol";

pub const SERVER_MORE: &str = "\
It answers an editor by the Language Server Protocol, over standard input and
output. It ends when the editor sends 'exit', or sends no more.

Exit status:
  0  'shutdown' came before the end
  1  it didn't
  2  a fault, which is said on standard error";

pub const HELP_ABOUT: &str = "Write the help of the program or of a command";

pub const HELP_MORE: &str = "\
'compass help COMMAND' writes what 'compass COMMAND --help' does.

Exit status:
  0  the help is written
  2  there is no such command, or a fault, which is said on standard error";
