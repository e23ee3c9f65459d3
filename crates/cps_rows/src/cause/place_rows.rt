//! Where causes show of all other flags.
use super::assertions::assert_rows;
use super::told::CauseDetail;

/// Operations and location fields.
const FIELDS: &str = "
TAG
> 1:1-3 O

          ENTRY   X
> 1:11-15 O

          M
M         MACRO
          ENDM
> 1:11-11 O

          LDN     1
> 1:11-13 O

          PERIPH
          SX1     1
> 2:11-13 O

          1ABC
> 1:11-14 O

          ABCDEFGHI
> 1:11-19 O

TAG       USE     W
> 1:1-3 L

TAG       ORG     1
> 1:1-3 L

TAG       BASE    O
> 1:1-3 L

TAG       TITLE   X
> 1:1-3 L

TAG       IDENT   P
> 1:1-3 L

+         ABS
> 1:1-1 L

TAG       IFEQ    1,1
          ENDIF
> 1:1-3 L

          IFEQ    1,1
TAG       ELSE
          ENDIF
> 2:1-3 L

          IFEQ    1,2
TAG       ELSE
          ENDIF
> 2:1-3 L

          IFEQ    1,2
TAG       ENDIF
> 2:1-3 L

TAG       DUP     1
          ENDD
> 1:1-3 L

          DUP     1
TAG       ENDD
> 2:1-3 L

M         MACRO
TAG       ENDM
> 2:1-3 L

TAG       END
> 1:1-3 L

1A        SX1     1
> 1:1-2 L

A0        SX1     1
> 1:1-2 L

ABCDEFGHI CON     1
> 1:1-9 L

A$B       BSS     1
> 1:1-3 L

          EQU     1
> 1:11-13 L

          SET     1
> 1:11-13 L

+         EQU     1
> 1:1-1 L

1A        =       1
> 1:1-2 L

          MACRO
          ENDM
> 1:11-15 L

-         MACRO
          ENDM
> 1:1-1 L

1A        MACRO
          ENDM
> 1:1-2 L

SX1       MACRO
          ENDM
> 1:1-3 L

LDN       MACRO
          ENDM
> 1:1-3 L

M         MACRO
          ENDM
+         M
> 3:1-1 L

M         MACRO
          ENDM
1A        M
> 3:1-2 L
";

#[test]
fn shows_fields(rt: HostRuntime) {
    assert_rows(&rt, rt.alloc(), CauseDetail::Places, FIELDS);
}

/// Symbols with a value, widths, and cut values.
const DEFINITIONS: &str = "
A         BSS     1
A         BSS     1
> 2:1-1 D

A         EQU     1
A         EQU     1
> 2:1-1 D

A         EQU     1
A         EQU     1+
> 2:1-1 D
> 2:19-20 A

A         SET     1
A         EQU     1
> 2:1-1 D

A         SET     1
A         SX1     1
> 2:1-1 D

M         MACRO
          ENDM
A         EQU     1
A         M
> 4:1-1 D

A         EQU     1
A         SET     1
> 2:1-1 D

          VFD     0/1
> 1:19-19 V

          VFD     12/1,61/1
> 1:24-25 V

          VFD     -1/1
> 1:19-20 V

          USE     W
A         BSS     1
          VFD     A/1
> 3:19-19 V

          SX1     1000000
> 1:19-25 T

          SX1     B1+1000000
> 1:19-28 T

          EQ      B1,B2,1000000
> 1:25-31 T

          LX1     64
> 1:19-20 T

          PERIPH
          LDN     64
> 2:19-20 T

          PERIPH
          LDM     1,64
> 2:21-22 T

          PERIPH
          LDM     4096,1
> 2:19-22 T

          PERIPH
          LDC     262144
> 2:19-24 T

          PERIPH
          CON     1,4096
> 2:21-24 T

          VFD     3/7,3/8
> 1:25-25 T

          VFD     61/1,3/9
> 1:19-20 V
> 1:26-26 T
";

#[test]
fn shows_definitions(rt: HostRuntime) {
    assert_rows(&rt, rt.alloc(), CauseDetail::Places, DEFINITIONS);
}

/// Symbols without a value.
const SYMBOLS: &str = "
A         EQU     Q
> 1:19-19 U

A         SET     A+1
> 1:19-19 U

          ORG     Q
> 1:19-19 U

          BSS     Q
> 1:19-19 U

          BSSZ    1+Q
> 1:21-21 U

          DIS     Q,ABC
> 1:19-19 U

          VFD     Q/1
> 1:19-19 U

          IFEQ    Q,1,1
*
> 1:19-19 U

          IFEQ    1,Q,1
*
> 1:21-21 U

          IFEQ    1,2,Q
> 1:23-23 U

          IF      DEF,X,Q
> 1:25-25 U

          DUP     Q,1
*
> 1:19-19 U

          DUP     1,Q
> 1:21-21 U

A         EQU     Q
Q         EQU     1
> 1:19-19 U

          BSS     Q
Q         BSS     1
> 1:19-19 U

          SX1     Q
> 1:19-19 U

          CON     1,Q
> 1:21-21 U

          VFD     12/Q
> 1:22-22 U

          PERIPH
          LDM     Q,R
R         EQU     1
> 2:19-19 U

          CON     Q
Q         SET     1
> 1:19-19 U

          IFEQ    Q,R,1
*
> 1:19-19 U
> 1:21-21 U
";

#[test]
fn shows_symbols(rt: HostRuntime) {
    assert_rows(&rt, rt.alloc(), CauseDetail::Places, SYMBOLS);
}

/// Values that a statement doesn't take.
const VALUES: &str = "
          USE     W
A         BSS     1
B         EQU     A*2
> 3:19-21 A

          USE     W
A         BSS     1
B         SET     A*2
> 3:19-21 A

A         EQU     576460752303423487+1
> 1:19-38 A

          USE     W
A         BSS     1
          ORG     A*2
> 3:19-21 A

          ORG     -1
> 1:19-20 A

          BSS     -1
> 1:19-20 A

          USE     W
A         BSS     1
          BSS     A
> 3:19-19 A

          USE     W
A         BSS     1
          BSSZ    A*2
> 3:19-21 A

          DIS     0,ABC
> 1:19-19 A

          DIS     101,ABC
> 1:19-21 A

          USE     W
A         BSS     1
          DIS     A,ABC
> 3:19-19 A

          USE     W
A         BSS     1
          VFD     A*2/1
> 3:19-21 A

          USE     W
A         BSS     1
          IFEQ    A*2,1,1
*
> 3:19-21 A

          USE     W
A         BSS     1
          IFEQ    A,1,1
*
> 3:19-21 A

          IFEQ    1,2,10000
> 1:23-27 A

          IFEQ    1,2,-1
> 1:23-24 A

          IF      -DEF,X,-1
> 1:26-27 A

          USE     W
A         BSS     1
          IFEQ    1,2,A*2
> 3:23-25 A

          DUP     -1,1
*
> 1:19-20 A

          USE     W
A         BSS     1
          DUP     A,1
*
> 3:19-19 A

          USE     W
A         BSS     1
          DUP     A*2,1
*
> 3:19-21 A

          DUP     1,0
> 1:21-21 A

          DUP     1,501
> 1:21-23 A

          USE     W
A         BSS     1
          DUP     1,A*2
> 3:21-23 A

          SX1     576460752303423487+1
> 1:19-38 A

          CON     1,576460752303423487*2
> 1:21-40 A

          VFD     12/576460752303423487*2
> 1:22-41 A

          LX1     -6
> 1:19-20 A

          PERIPH
          UJN     100
> 2:19-21 A

          PERIPH
          BSS     100
          UJN     Q
> 3:19-19 U
> 3:19-19 A

1A        VFD     12/Q,61/576460752303423487*2
> 1:1-2 L
> 1:22-22 U
> 1:24-25 V
> 1:27-46 A

A         EQU     1
A         BSS     -1
> 2:1-1 D
> 2:19-20 A
";

#[test]
fn shows_values(rt: HostRuntime) {
    assert_rows(&rt, rt.alloc(), CauseDetail::Places, VALUES);
}

/// Where statements stand.
const STRUCTURE: &str = "
          IDENT   A
          IDENT   B
> 2:11-15 E

          SX1     1
          IDENT   B
> 2:11-15 E

          ABS
          PERIPH
> 2:11-16 E

          SX1     1
          ABS
> 2:11-13 E

M         MACRO
          ENDM
          M
          ABS
> 4:11-13 E

          END
          SX1     1
> 2:11-19 E

          END
          END
> 2:11-13 E

,SX1 1
> 1:1-1 E

          ELSE
> 1:11-14 E

          ENDIF
> 1:11-15 E

          IFEQ    1,2
          ELSE
          ELSE
          ENDIF
> 3:11-14 E

          IFEQ    1,1
          ELSE
          ELSE
          ENDIF
> 3:11-14 E

          IFEQ    1,1
          END
> 2:11-13 E

          IFEQ    1,2
          END
> 2:11-13 E

          IFEQ    1,2,3
          END
> 2:11-13 E

          DUP     2
          END
> 2:11-13 E

M         MACRO
          END
> 2:11-13 E

          IFEQ    1,1
> end E from line 1

M         MACRO
> end E from line 1

          DUP     2
> end E from line 1

          IFEQ    1,2,3
> end E from line 1

          IFEQ    1,1
          IFEQ    1,1
          ENDIF
> end E from line 1

          IFEQ    1,1
          ENDIF
          IFEQ    1,1
> end E from line 3

          IFEQ    1,2
          ELSE
> end E from line 1

          IFEQ    1,1
          IFEQ    1,2
          IFEQ    1,1
          ENDIF
> end E from line 2

          IFEQ    1,1
          DUP     2
> end E from line 2

          IFEQ    1,1
          DUP     2
          ENDD
> end E from line 1

          ENDD
> 1:11-14 E

          ENDM
> 1:11-14 E

M         MACRO
N         MACRO
          ENDM
> 2:11-15 E

          IFEQ    1,1
T         END
> 2:1-1 L
> 2:11-13 E
";

#[test]
fn shows_structure(rt: HostRuntime) {
    assert_rows(&rt, rt.alloc(), CauseDetail::Places, STRUCTURE);
}

/// Limits.
const LIMITS: &str = "
          ORG     131073
> 1:19-24 E

          PERIPH
          ORG     4097
> 2:19-22 E

          ORG     131072
          SX1     1
> 2:11-19 E

          PERIPH
          ORG     4095
          LDM     1
> 3:11-19 E

          ORG     131071
          CON     1,2
> 2:11-21 E

          ORG     131071
          DATA    1,2
> 2:11-21 E

          ORG     131071
          DIS     2,AB
> 2:11-22 E

          ORG     131071
          VFD     60/1,1/1
> 2:11-26 E

          ORG     131071
          BSS     2
> 2:11-19 E

          BSSZ    131073
> 1:11-24 E

          BSS     131072
          USE     W
          CON     1
> 3:11-19 E

          BSS     131072
          BSS     0
> 2:11-19 E

          BSS     131072
          USE     W
          SX1     1
> 3:11-19 E

          SA1     =5
          BSS     131071
> 1:19-20 E

          DUP     1001,1
*
> 1:19-22 E

          ORG     131072
          SX1     Q
> 2:11-19 E
> 2:19-19 U
";

#[test]
fn shows_limits(rt: HostRuntime) {
    assert_rows(&rt, rt.alloc(), CauseDetail::Places, LIMITS);
}
