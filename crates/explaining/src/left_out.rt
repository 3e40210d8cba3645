//! Words of PL/M-80 and its relatives that this language has not, or has not everywhere.

use crate::sentences::said_of;
use sources::Name;

// What to write for words that are left out: a line for each.
const CURES: &str = "\
BASED A name in parentheses has no BASED: DECLARE X BASED P BYTE, Y BASED Q BYTE
BOOLEAN BOOLEAN came from an included file: DECLARE BOOLEAN LITERALLY 'BYTE'
CARRY CARRY is left out: ADC(A, B), SBB(A, B), or CARRY of examples/arithmetic; after W = W + X of ADDRESS values IF W < X
CR CR came from an included file: DECLARE CR LITERALLY '0DH'
DEC DEC is left out: DEC$ADC, DEC$SBB, DEC$ADD and DEC$SUBTRACT of examples/arithmetic
DISABLE DISABLE is left out: delete it, or CALL an object that has DI
DWORD DWORD is of PL/M-86: two ADDRESS variables, as in examples/arithmetic
ENABLE ENABLE is left out: delete it, or CALL an object that has EI
EOF EOF after the module is left out: delete it
FALSE FALSE came from an included file: DECLARE FALSE LITERALLY '0'
FOREVER FOREVER came from an included file: DECLARE FOREVER LITERALLY 'WHILE 1'
GO GO TO is one word here: GOTO
INTEGER INTEGER is of PL/M-86: ADDRESS
INTERRUPT Interrupts are left out: read a status port in a loop, as in examples/letters
LABEL A label needs no declaration: delete it
LF LF came from an included file: DECLARE LF LITERALLY '0AH'
MEMORY MEMORY is left out: DECLARE MEMORY(4096) BYTE AT (8000H)
MINUS MINUS is left out: SBB(A, B) of examples/arithmetic, for the - of the byte before too, after CARRY = 0; within DEC( ) it is DEC$SBB(A, B)
MON1 MON1 is of CP/M: declare it EXTERNAL, as in examples/cpm/calls.plm
MON2 MON2 is of CP/M: declare it EXTERNAL, as in examples/cpm/calls.plm
MON3 MON3 is of CP/M: declare it EXTERNAL, as in examples/cpm/calls.plm
PARITY PARITY is left out: compare the value
PLUS PLUS is left out: ADC(A, B) of examples/arithmetic, for the + of the byte before too, after CARRY = 0; within DEC( ) it is DEC$ADC(A, B)
POINTER POINTER is of PL/M-86: ADDRESS
SCL SCL is left out: SCL of examples/arithmetic; of several bytes SHIFT$LEFT
SCR SCR is left out: SCR of examples/arithmetic; of several bytes SHIFT$RIGHT
SIGN SIGN is left out: compare the value, as A >= 80H
STACKPTR STACKPTR is left out: delete it; --stack and --stack-size say where the stack is
TIME TIME is left out: a procedure of your own, as in docs/old-sources.md
TRUE TRUE came from an included file: DECLARE TRUE LITERALLY '0FFH'
WORD WORD is of PL/M-86: ADDRESS
ZERO ZERO is left out: compare the value, as A = 0
";

// What to write for words that begin a statement in other languages, or come after DO there: a line for each.
const STRANGE: &str = "\
BEGIN BEGIN is DO here: DO; and END; go around several statements
ELIF ELIF is two words here: ELSE IF
ELSEIF ELSEIF is two words here: ELSE IF
ELSIF ELSIF is two words here: ELSE IF
ENDDO ENDDO is END here
ENDIF An IF has no end of its own: DO; and END; go around several statements
FOR FOR is DO here: DO I = 1 TO 10
UNTIL UNTIL is left out: DO WHILE NOT
";

/// What to write for a word of another language.
pub(crate) fn cure_of_strange(word: &[u8]) -> Option<&'static str> {
    said_of(STRANGE, Name::from_text(word)?.as_slice())
}

/// What to write for a word of a source, where it is one that is left out.
pub(crate) fn cure_of(word: &[u8]) -> Option<&'static str> {
    said_of(CURES, Name::from_text(word)?.as_slice())
}

// The built-in procedures that stand in expressions, and OUTPUT.
const BUILT_IN: &str = "\
DOUBLE
HIGH
INPUT
LAST
LENGTH
LOW
OUTPUT
ROL
ROR
SHL
SHR
SIZE
";

// Whether a word is one of the names of a list, each on a line.
fn is_in(list: &'static str, word: &[u8]) -> bool {
    for name in list.lines() {
        if is_same_name(word, name.as_bytes()) {
            return true;
        }
    }
    false
}

/// Whether a word is the name of a built-in procedure that stands in expressions, or of OUTPUT.
pub(crate) fn is_built_in(word: &[u8]) -> bool {
    is_in(BUILT_IN, word)
}

// The procedures without a result that are left out, and those of CP/M.
const CALLED: &str = "\
MON1
MON2
MON3
TIME
";

/// Whether a word is the name of a procedure that programs of the time call, and that is left out, or is one of CP/M.
pub(crate) fn is_called_of_time(word: &[u8]) -> bool {
    is_in(CALLED, word)
}

/// Whether two words of a source are the same name.
pub(crate) fn is_same_name(word: &[u8], other: &[u8]) -> bool {
    match (Name::from_text(word), Name::from_text(other)) {
        (Some(name), Some(same)) => name == same,
        _ => false,
    }
}

/// Whether a name is a hexadecimal number that lacks its first digit.
pub(crate) fn is_number_without_digit(word: &[u8]) -> bool {
    match word {
        [digits @ .., b'H' | b'h'] => {
            !digits.is_empty() && digits.iter().all(u8::is_ascii_hexdigit)
        }
        _ => false,
    }
}
