//! Where causes in expansions show.
use super::assertions::assert_rows;
use super::told::CauseDetail;

/// Statements of expansions. What a cause quotes of them shows in the arguments of the line's call; where it stands in none the operation shows.
const EXPANSIONS: &str = "
M         MACRO   P
*_P
          CON     1                  .................................._P_P_P_P_P_P_P_P_P
          ENDM
          M       ABCDEFGHIJKLMNOPQRST
> 5:11-11 E

          DUP     1,1
          ENDM
> 2:11-14 E

          DUP     1,1
M         MACRO
> 2:11-15 E

M         MACRO   P
          P
          ENDM
          M       END
> 4:19-21 E

          DUP     1,1
          DUP     2
> 2:11-13 E

M         MACRO
          M
          ENDM
          M
> 4:11-11 E

M         MACRO
*
*
*
*
*
*
*
*
*
*
*
*
*
*
*
*
*
*
*
*
          ENDM
          DUP     1000,1
          M
> 24:11-11 E

M         MACRO   P
          CON     P
          ENDM
          M       Q
> 4:19-19 U

M         MACRO   P
          VFD     12/P
          ENDM
          M       1RA
> 4:19-21 A

          DUP     2,1
Q         EQU     1
> 2:1-1 D

M         MACRO
          BASE    O
          CON     18
          BASE    D
          CON     18
          ENDM
          M
> 7:11-11 A

N         SET     62
          DUP     3,2
          LX1     N
N         SET     N+1
> 4:11-13 T

          DUP     1,2
          LX1     64
          CON     64
> 3:11-13 T

FUNC      MACRO   CODE,ADDR
          IFNE    ADDR,0
          SX1     CODE
          ENDIF
          ENDM
TDR1      FUNC    1,TDR5             CONNECT
TDR5      EQU     1
> 6:21-24 U

M         MACRO   P
          CON     P
          ENDM
          M       Q+1
> 4:11-11 U

M         MACRO   P
          CON     P
          ENDM
          M       1+Q
> 4:11-11 U

M         MACRO   P,R
          CON     R
          ENDM
          M       Q,Q
> 4:19-19 U

M         MACRO   P
          CON     Q
          ENDM
          M       1 Q
> 4:11-11 U

M         MACRO   P
          CON     P
          ENDM
          M       (1,Q)
> 4:22-22 U

N         MACRO   P
          CON     P
          ENDM
M         MACRO   P
          N       P
          ENDM
          M       Q
> 7:19-19 U

M         MACRO   P
          P       1
          ENDM
          M       AWAY
> 4:19-22 O

A         EQU     1
M         MACRO   P
P         EQU     2
          ENDM
          M       A
> 5:19-19 D

M         MACRO   P,R
          M       P,P
          ENDM
          M       M
> 4:11-11 E

M         MACRO   P,R
P         CON     1                  .................................._R_R_R_R_R_R_R_R_R
          ENDM
          M       A,ABCDEFGHIJKLMNOPQRST
> 4:11-11 E
";

#[test]
fn shows_expansions(rt: HostRuntime) {
    assert_rows(&rt, rt.alloc(), CauseDetail::Places, EXPANSIONS);
}
