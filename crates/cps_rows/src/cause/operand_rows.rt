//! Where causes show of operands that can't be read.
use super::assertions::assert_rows;
use super::told::CauseDetail;

/// Sources, and where each cause shows.
const OPERANDS: &str = "
          IDENT   1TD,1000B
> 1:19-21 A

          IDENT
> 1:11-15 A

          BASE    MIXED
> 1:19-23 A

          BASE
> 1:11-14 A

          USE     W,V
> 1:21-21 A

          USE     00
> 1:19-20 A

          USE     A0
> 1:19-20 A

A         EQU
> 1:11-13 A

A         EQU     1,2
> 1:21-21 A

          BASE    O
A         EQU     18
> 2:19-20 A

A         EQU     X1
> 1:19-20 A

A         EQU     1+
> 1:19-20 A

A         EQU     1$2
> 1:19-21 A

A         EQU     576460752303423488
> 1:19-36 A

          CON     1RA
> 1:19-21 A

A         SET     )
> 1:19-19 A

          ORG     )
> 1:19-19 A

          BSS     )
> 1:19-19 A

          CON     1,,2
> 1:21-21 A

          CON
> 1:11-13 A

          CON     1,1A,3
> 1:21-22 A

          DATA    1,8B
> 1:21-22 A

          DATA    1,11HABC
> 1:21-26 A

          DATA
> 1:11-14 A

          PERIPH
          DATA    4096
> 2:19-22 A

          VFD
> 1:11-13 A

          VFD     12/1,5
> 1:24-24 A

          VFD     12/1,A0/1
> 1:24-25 A

          VFD     12/2LDI,12/1
> 1:22-25 A

          DIS     1
> 1:19-19 A

          DIS
> 1:11-13 A

          DIS     1A,ABC
> 1:19-20 A

          DIS     ,
> 1:19-19 A

          DIS     , ABC
> 1:19-19 A

          DIS     ,*ABC
> 1:20-23 A

          IFEQ    1
> 1:19-19 A

          IFEQ    1,2,3,4
> 1:25-25 A

          IFEQ    1,2L,1
> 1:21-22 A

          IF      UNDEF,X,1
> 1:19-23 A

          IF      DEF,1X,1
> 1:23-24 A

          IF      DEF
> 1:19-21 A

          IF      DEF,X,1,2
> 1:27-27 A

          IF      DEF,X,1X
> 1:25-26 A

          DUP
> 1:11-13 A

          DUP     1,2,3
> 1:23-23 A

          DUP     1X
> 1:19-20 A

M         MACRO   1P
          ENDM
> 1:19-20 A

M         MACRO   P=
          ENDM
> 1:19-20 A

M         MACRO   P,Q,P
          ENDM
> 1:23-23 A

M         MACRO   P
          ENDM
          M       1,2
> 3:21-21 A

M         MACRO   P
          ENDM
          M       (1,2
> 3:19-22 A

          SX1
> 1:11-13 A

          SA1     B2*3
> 1:19-22 A

          SX1     X1-B1
> 1:19-23 A

          EQ      B1,B2,B3,X
> 1:19-28 A

          ZR      B1,X1,5
> 1:19-25 A

          BX1     X1/X2
> 1:19-23 A

          RJ      1A
> 1:19-20 A

          SA1     =8B
> 1:19-21 A

          SA1     =5+1
> 1:19-22 A

          SX1     1RA
> 1:19-21 A

          PERIPH
          LDN
> 2:11-13 A

          PERIPH
          LDN     1,2
> 2:21-21 A

          PERIPH
          LDN     1RA
> 2:19-21 A

          PERIPH
          LDC     A0
> 2:19-20 A

          PERIPH
          LDN     =1
> 2:19-20 A

          PERIPH
          LDM     =4096
> 2:19-23 A
";

#[test]
fn shows_unreadable_operands(rt: HostRuntime) {
    assert_rows(&rt, rt.alloc(), CauseDetail::Places, OPERANDS);
}
