//! The words of causes.
use super::assertions::assert_rows;
use super::told::CauseDetail;

/// Sources, and what is told of them.
const WORDS: &str = "
TAG
> 1:1-3 O no operation stands behind TAG

          ENTRY   X
> 1:11-15 O ENTRY is an operation of COMPASS that is left out here: where nothing hangs on it, an empty macro of its name takes its place, called behind ABS or PERIPH

          xj      B1
> 1:11-12 O xj is an operation of COMPASS that is left out here: it is an instruction of some central processors; write a VFD of its code

          FORTRAN
> 1:11-17 O FORTRAN is no operation, and no macro above has this name

          SBI     1
> 1:11-13 O SBI is an instruction of a peripheral processor, and no PERIPH stands above; perhaps SB1

          SXl     1
> 1:11-13 O SXl is no operation, and no macro above has this name; perhaps SX1

          PERIPH
          LDDN    1
> 2:11-14 O LDDN is no operation, and no macro above has this name; perhaps LDN

          M
M         MACRO
          ENDM
> 1:11-11 O M is no operation, and the macro of this name is defined below

          LDN     1
> 1:11-13 O LDN is an instruction of a peripheral processor, and no PERIPH stands above

          PERIPH
          SX1     1
> 2:11-13 O SX1 is an instruction of the central processor, and PERIPH stands above

          1ABC
> 1:11-14 O 1ABC is no operation, and no symbol that a macro could have for its name

TAG       ORG     1
> 1:1-3 L ORG takes nothing in the location field

1A        SX1     1
> 1:1-2 L 1A is no symbol: a letter or a point stands first in one

A0        SX1     1
> 1:1-2 L A0 is no symbol: it is a register

ABCDEFGHI CON     1
> 1:1-9 L ABCDEFGHI is no symbol: it has more than 8 characters

A$B       BSS     1
> 1:1-3 L A$B is no symbol: it has a character that is no letter, no digit, no point and no =

          EQU     1
> 1:11-13 L EQU needs a symbol in the location field

+         EQU     1
> 1:1-1 L EQU needs a symbol in the location field, and not +

1A        =       1
> 1:1-2 L = needs a symbol in the location field; 1A is no symbol: a letter or a point stands first in one

          MACRO
          ENDM
> 1:11-15 L MACRO needs its name, a symbol, in the location field

SX1       MACRO
          ENDM
> 1:1-3 L SX1 is an operation, and no macro can have its name

M         MACRO
          ENDM
+         M
> 3:1-1 L a call takes a symbol or nothing in the location field, and not +

A         EQU     1
A         EQU     1
> 2:1-1 D A has a value already, and keeps it

A         SET     1
A         EQU     1
> 2:1-1 D A has a value by SET already, and keeps it

A         EQU     1
A         SET     1
> 2:1-1 D A has a value already that isn't by SET, and keeps it

          VFD     12/1,61/1
> 1:24-25 V a field has 1 to 60 bits, and not 61

          USE     W
A         BSS     1
          VFD     A/1
> 3:19-19 V a field has 1 to 60 bits, and A is an address in block W

          SX1     1000000
> 1:19-25 T the value 1000000 doesn't fit 18 bits (-131071 to 262143); what is past them is cut off

A         EQU     Q
> 1:19-19 U no line gives Q a value, and it must have one here

A         EQU     Q
Q         EQU     1
> 1:19-19 U no line above gives Q a value, and it must have one here

          SX1     Q
> 1:19-19 U no line gives Q a value; it counts as 0

TABLE     SA1     TABEL
> 1:19-23 U no line gives TABEL a value; it counts as 0; perhaps TABLE

LOOP      BSS     1
          BSS     L0OP
> 2:19-22 U no line gives L0OP a value, and it must have one here; perhaps LOOP

          SX1     1O0B
> 1:19-22 A 1O0B is no number, no symbol and no *; perhaps 100B

          SB2     X1-1R0
> 1:22-24 A 1R0: characters can't stand in an expression, only in DATA and behind =

          DATA    10HHELLO WORLD
> 1:19-21 A 10H takes 10 characters, and no comma and no blank stands behind them

          CON     Q
Q         SET     1
> 1:19-19 U Q has values by SET alone, and none above; it counts as 0

          IDENT   1TD,1000B
> 1:19-21 A 1TD is no symbol: a letter or a point stands first in one

          BASE    MIXED
> 1:19-23 A BASE takes O or D, and not MIXED

          USE     W,V
> 1:21-21 A USE takes a symbol, 0, * or nothing, and not V

A         EQU
> 1:11-13 A EQU takes one operand, and none stands here

          BASE    O
A         EQU     18
> 2:19-20 A 18 is no octal number, which has no digit 8 or 9

A         EQU     X1
> 1:19-20 A X1 is a register, and none may stand here

A         EQU     1+
> 1:19-20 A 1+: an element is missing before or behind an operator

A         EQU     576460752303423488
> 1:19-36 A 576460752303423488 is greater than 2^59 - 1

          CON     1RA
> 1:19-21 A 1RA: characters can't stand in an expression, only in DATA and behind =

          CON     1,,2
> 1:21-21 A an operand is empty

          CON     1,1A,3
> 1:21-22 A 1A is no number, no symbol and no *

          DATA    1,8B
> 1:21-22 A 8B is no data item that a word holds

          VFD     12/1,5
> 1:24-24 A a field is its bits, / and its value, and no / stands in 5

          DIS     1
> 1:19-19 A DIS takes n,text or ,dtextd, and no comma stands in 1

          DIS     ,
> 1:19-19 A no delimiter, which is no blank, stands behind ,

          DIS     ,*ABC
> 1:20-23 A no second delimiter ends *ABC

          IFEQ    1
> 1:19-19 A IFEQ takes two values, and perhaps a number of lines, and fewer stand here

          IF      UNDEF,X,1
> 1:19-23 A IF takes DEF or -DEF first, and not UNDEF

          DUP     1,2,3
> 1:23-23 A DUP takes a number of times, and perhaps a number of lines, and no more

M         MACRO   P=
          ENDM
> 1:19-20 A P= is no symbol without =, as a parameter or a local name is

M         MACRO   P,Q,P
          ENDM
> 1:23-23 A P is a parameter or a local name already

M         MACRO   P
          ENDM
          M       1,2
> 3:21-21 A the macro has 1 parameter, and arguments are too many from here on

M         MACRO   P
          ENDM
          M       (1,2
> 3:19-22 A a parenthesis stays open: (1,2

          BX1     X1/X2
> 1:19-23 A no form of BX1 takes X1/X2

          PERIPH
          LDN     =1
> 2:19-20 A =1 is no literal that LDN takes

          USE     W
A         BSS     1
B         EQU     A*2
> 3:19-21 A A*2 has no value: it is past 2^59 - 1, or what it makes of addresses in blocks is no address

          ORG     -1
> 1:19-20 A a number below 0 can't stand here, and this is -1

          USE     W
A         BSS     1
          BSS     A
> 3:19-19 A A is an address in block W, and a number must stand here

          DIS     101,ABC
> 1:19-21 A 101 is not from 1 to 100

          USE     W
A         BSS     1
          IFEQ    A,1,1
*
> 3:19-21 A values that aren't in one block don't compare

          SX1     576460752303423487+1
> 1:19-38 A 576460752303423487+1 has no value: it is past 2^59 - 1, or what it makes of addresses in blocks is no address; it counts as 0

          LX1     -6
> 1:19-20 A a count is 0 or more, and not -6; it counts as 0; a left shift by 54 is one to the right as far

          PERIPH
          UJN     100
> 2:19-21 A the target is 100 words away, and a jump goes 31 at most

          IDENT   A
          IDENT   B
> 2:11-15 E this is a second IDENT

          SX1     1
          IDENT   B
> 2:11-15 E IDENT stands in the head alone, which has ended

          ABS
          PERIPH
> 2:11-16 E the machine is told above already

          END
          SX1     1
> 2:11-19 E the program has ended; only comments may follow

,SX1 1
> 1:1-1 E no line goes on in the next one, so no comma may stand in column 1

          ORG     131073
> 1:19-24 E the machine has 131072 words, and 131073 is past them

          ORG     131072
          SX1     1
> 2:11-19 E this would pass the machine's 131072 words

          BSS     131072
          USE     W
          CON     1
> 3:11-19 E this stands at word 131072 when all blocks are placed, and the machine has 131072 words

          SA1     =5
          BSS     131071
> 1:19-20 E the literal stands at word 131072 when all blocks are placed, and the machine has 131072 words

          ELSE
> 1:11-14 E no range is open for ELSE

          IFEQ    1,2
          ELSE
          ELSE
          ENDIF
> 3:11-14 E this range has an ELSE already

M         MACRO
          END
> 2:11-13 E the program ends in the lines of a macro from line 1

          DUP     1001,1
*
> 1:19-22 E lines are repeated 1000 times at most, and not 1001

          ENDD
> 1:11-14 E no lines are kept for ENDD

M         MACRO
N         MACRO
          ENDM
> 2:11-15 E MACRO can't stand in the lines of another one; is an ENDM missing above?

M         MACRO   P
*_P
          CON     1                  .................................._P_P_P_P_P_P_P_P_P
          ENDM
          M       ABCDEFGHIJKLMNOPQRST
> 5:11-11 E with its arguments this has 251 characters, and 90 are the most

          DUP     1,1
          ENDM
> 2:11-14 E ENDM can't stand in an expansion

          DUP     1,1
          DUP     2
> 2:11-13 E the DUP of this expansion has no ENDD in it

          BASE    O
          SX1     1000000
> 2:19-25 T the value 262144 (1000000B) doesn't fit 18 bits (-377777B to 777777B); what is past them is cut off

          BASE    O
          LX1     -20
> 2:19-21 A a count is 0 or more, and not -16 (-20B); it counts as 0; a left shift by 44 (54B) is one to the right as far

          BASE    O
          BSS     -7
> 2:19-20 A a number below 0 can't stand here, and this is -7

          BASE    O
          VFD     100/1
> 2:19-21 V a field has 1 to 60 bits, and not 64 (100B)

          SB1     BO
> 1:19-20 U no line gives BO a value; it counts as 0; perhaps B0

          SB1     B9
> 1:19-20 U no line gives B9 a value; it counts as 0; registers are 0 to 7

          EQ      B1,BI,TAG
TAG       NO
> 1:19-27 A no form of EQ takes B1,BI,TAG; perhaps B1

          ZR      X1 TAG
TAG       NO
> 1:19-20 A no form of ZR takes X1; operands end at the first blank

          SA8     1
> 1:11-13 O SA8 is no operation, and no macro above has this name; registers are 0 to 7

IDENT   SUM
> 1:9-11 O SUM is no operation, and no macro above has this name; IDENT is one, and stands in the location field: begin it in column 11

  START     SA1     100B
> 1:3-7 O START is no operation, and no macro above has this name; SA1 is one: a location field begins in column 1 or 2

00100     ABS
> 1:1-5 L ABS takes nothing in the location field; lines of a source have no numbers in front

          SX1     (5+1)
> 1:19-20 A (5: an expression has no parentheses

          VFD     60/0LADD
> 1:22-26 A 0LADD: characters can't stand in an expression, only in DATA and behind =

M         MACRO
          M
          ENDM
          M
> 4:11-11 E this would open statements more than 10 deep; does a macro call itself?
";

#[test]
fn tells_words(rt: HostRuntime) {
    assert_rows(&rt, rt.alloc(), CauseDetail::Words, WORDS);
}
