//! What is printed of the numbers of faults of a source, and of its code. `tools/faults --write` makes it of docs/faults.md.

/// The pages, with form feeds between them. Each begins with its number, on a line of its own.
pub const SOURCES: [u8; 18421] = *b"\
C1

A character that is not allowed there, or a string that is not closed on its
line. Outside comments and strings this is a character that begins no word.
Inside them it is one that is not a printable ASCII character (a blank is one; a
comment may also contain tabs and line ends). Neither a string nor the text of a
LITERALLY can contain a line end. The line is that on which the word, the
comment or the string begins.

In old sources it is the most common fault of all:

You have                                      Write
--------------------------------------------  ----------------------------------
control lines: `$TITLE('..')`,                nothing: `plm convert` empties
  `$PAGEWIDTH(80)`, `$OBJECT(..)`               them
`$INCLUDE (TEXT.LIT)`                         the text of that file, which
                                                `plm convert` puts in its place
form feeds (0CH) between pages, ^Z (1AH) and  nothing: `plm convert` takes them
  zeros at the end of a file from CP/M          away
a string or a text of LITERALLY that          one line, which may have any
  continues on the next line                    length
a tab in a string                             blanks, or `'A', 9, 'B'` in a list
                                                of values
accented letters, curved quotes and long      ASCII characters
  dashes, even in comments
`_` in a name, `\"` around a string, `#`,      `$` in a name, `'` around a
  `@`, `[`, `]`                                 string, and what the language
                                                has

`plm convert old.plm > new.plm` does the first three. With `--listing` it takes
the source out of a listing that a compiler printed, and with `--cards` it takes
away card numbers, in columns 73 to 80: see `docs/old-sources.md`.

`plm run` of an object file is also C1, and of a HEX text C3: it takes only
sources.

wrong.plm:

    $TITLE('SUM')
    SUM: DO;
        OUTPUT(1) = 2 + 3;
    END SUM;

Printed: `C1 wrong.plm 1`. Cure: delete the first line.
\x0cC2

The text ends within a string or a comment. The line is that on which it begins.
It is nearly always a comment whose `*/` is missing or has a blank in it. A
string that is not closed is C2 only if no line end follows it; otherwise it is
C1.

wrong.plm:

    M: DO;
        OUTPUT(1) = 1;   /* the first * /
        OUTPUT(1) = 2;
    END M;

Printed: `C2 wrong.plm 2`. Cure: `*/`. Comments don't nest: after `/* /* */ */`
the last two characters are C7.
\x0cC3

A word that begins with a digit and is not a number, or a number over 65535. In
old sources it is usually a hexadecimal number that lost its H, such as `0FF` or
`1A`. Or it has the letter `O` for the digit `0`. Or a last letter B or D is
read as the base: `0AB` ends with B, so it is binary. A hexadecimal number that
begins with a letter, such as `FFH`, is a name, and so C11.

wrong.plm:

    M: DO;
        OUTPUT(1) = 0FF;
    END M;

Printed: `C3 wrong.plm 2`. Cure: `0FFH`.
\x0cC4

A name of more than 31 characters. `$` is not counted. Intel's compilers had the
same limit, so in old sources it is usually two names that lost the text between
them, such as a comma at the end of a line.

wrong.plm:

    M: DO;
        DECLARE NUMBER$OF$CHARACTERS$IN$THE$LINE$BUFFER BYTE;
    END M;

Printed: `C4 wrong.plm 2`. Cure: a shorter name.
\x0cC5

LITERALLY goes too deep: texts within texts 17 deep, or more than 2,097,152
words in all. It is nearly always a name whose text uses the name itself,
directly or through others. The line is that of the use.

wrong.plm:

    M: DO;
        DECLARE PORT LITERALLY 'PORT';
        OUTPUT(PORT) = 1;
    END M;

Printed: `C5 wrong.plm 3`. Cure: a text that does not use the name, such as
`'1'`.
\x0cC6

A name that LITERALLY defines already, or a quote in the text of a definition. A
definition holds from its place to the end of the module, even inside a
procedure. So two procedures can't both define CR, not even identically. In old
sources two included files often have the same definitions.

wrong.plm:

    M: DO;
        DECLARE CR LITERALLY '0DH';
        DECLARE LF LITERALLY '0AH', CR LITERALLY '0DH';
        OUTPUT(1) = CR;
    END M;

Printed: `C6 wrong.plm 3`. Cure: delete the second definition. In place of a
text with a quote in it, such as `'''A'''`, write a number (`'41H'`), or the
string at each use.

C1 to C4 with the line of a definition may also come from the text between its
quotes.
\x0cC7

A word that is not allowed there, or a text that ends before its module does. It
is the number of all mistakes of grammar, and also of most words of PL/M-80 that
this profile leaves out.

wrong.plm:

    M: DO;
        DECLARE A BYTE
        A = 1;
    END M;

Printed: `C7 wrong.plm 3`. Cure: the semicolon at the end of line 2.

You have                       Line of       Write
-----------------------------  ------------  -----------------------------------
a statement without its        the next      the semicolon
  semicolon                      word
`IF A THEN B = 1 ELSE B = 2;`  `ELSE`        `IF A THEN B = 1; ELSE B = 2;`
`A := 1;`                      `:=`          `A = 1;` (`:=` only in parentheses
                                               in an expression)
`A = 0, B = 0;`                the comma     `A, B = 0;`
`V(I := I + 1)`,               `:=`          `V((I := I + 1))`: its own
  `CALL P(A := 1)`                             parentheses
`CALL P();`                    `)`           `CALL P;`
`P(3);`                        the           `CALL P(3);`
                                 semicolon
`A < B < C`                    the second    `A < B AND B < C`
                                 `<`
a DECLARE or a procedure       the DECLARE   put it before the first statement,
  after a statement              or the        or open a `DO;` for it
                                 procedure
`LOOP: DO; .. END LOOP;`       the name      `END;`: only modules and procedures
                                 after END     have a name there
`L: END;`                      `END`         `L: ; END;`
one `END` too few              the last      the END
                                 word
one `END` too many, or `EOF`   the word      nothing
  after the module               after the
                                 module's
                                 end
a listing with numbers before  the first     the source, which
  its lines                      number        `plm convert --listing` takes out
                                               of it
`100H:` before the module      the number    nothing: delete it, and use
                                               `--code 256`
`BOOLEAN` and other words of   that word     `DECLARE BOOLEAN LITERALLY 'BYTE';`
  an included file                             and the like
statements without a module    the first     `NAME: DO;` before, `END NAME;`
  around them                    word that     after them
                                 shows it
`PROCEDURE REENTRANT PUBLIC`,  `PUBLIC`      `PUBLIC REENTRANT`,
  `INITIAL (1) PUBLIC`                         `PUBLIC INITIAL (1)`
`DECLARE TEXT DATA ('HI');`    `DATA`        `DECLARE TEXT(*) BYTE DATA ('HI');`
`GO TO L;`                     `GO`          `GOTO L;`
`GO TO BDOS;`, `GOTO 0;`: an   the number    in MON1 and MON2 of CP/M: nothing,
  address                                      and EXTERNAL in the heading;
                                               `CALL MON1(0, 0);` for 0
`DECLARE L LABEL;`             `LABEL`       nothing: a label needs no
                                               declaration
`DECLARE (X BASED P) BYTE;`    `BASED`       `DECLARE X BASED P BYTE;`
`INITIAL (-1)`                 `-`           `INITIAL (255)` or `(65535)`
`AT (.X(2))`,                  the `(`       `.X + 2`: a number of bytes
  `INITIAL (.X(2))`              after X
`DECLARE Y BASED S.P BYTE;`    the `.`       an ADDRESS variable of its own
`DO FOREVER;` without its      the `;`       `DECLARE FOREVER LITERALLY 'WHILE
  definition                                   1';` before it
`DECLARE W WORD;`, `INTEGER`,  that word     ADDRESS
  `POINTER` (PL/M-86)
`PROCEDURE INTERRUPT 3`,       that word     interrupts are left out: poll a
  `ENABLE;`, `DISABLE;`                        port in a loop
`A PLUS B`, `A MINUS B`        that word     see \"Differences from Intel's
                                               PL/M-80 V4\" in `docs/language.md`

`plm convert` mends some of these in an old source: `docs/convert.md` says
which.
\x0cC8

Nested more than 64 levels deep. Statements in statements, parentheses in
expressions, and each operator of a chain count. A sum in a statement of the
module has at most 63 terms, and an `ELSE IF` chain is one level deeper with
each IF. The line is that of the first word that is too deep; in a sum it is
that of the operator that makes it too long. Long chains of tests are the usual
cause. A sum of 64 ones:

wrong.plm:

    M: DO;
        OUTPUT(1) = 1 + 1 + 1 + 1 + 1 + 1 + 1 + 1 + 1 + 1 + 1 + 1 + 1 + 1 + 1
            + 1 + 1 + 1 + 1 + 1 + 1 + 1 + 1 + 1 + 1 + 1 + 1 + 1 + 1 + 1 + 1 + 1
            + 1 + 1 + 1 + 1 + 1 + 1 + 1 + 1 + 1 + 1 + 1 + 1 + 1 + 1 + 1 + 1 + 1
            + 1 + 1 + 1 + 1 + 1 + 1 + 1 + 1 + 1 + 1 + 1 + 1 + 1 + 1 + 1;
    END M;

Printed: `C8 wrong.plm 5`. Cure: two statements, `A = 1 + .. ;` and
`OUTPUT(1) = A + .. ;`; for a chain of `ELSE IF`, a DO CASE, or a procedure that
returns once a case was found.
\x0cC9

The name after END is not that of what it ends. Either the name is misspelled,
or an earlier END is missing or superfluous, so that this END ends something
else.

wrong.plm:

    MAIN: DO;
        OUTPUT(1) = 1;
    END MIAN;

Printed: `C9 wrong.plm 3`. Cure: `END MAIN;`.
\x0cC11

A name, or a member, that is not known there. The line is that of the name.

wrong.plm:

    M: DO;
        OUTPUT(1) = FFH;
    END M;

Printed: `C11 wrong.plm 2`. Cure: `0FFH`; a number begins with a digit.

You have                              Write
------------------------------------  ------------------------------------------
`TRUE`, `FALSE`, `CR`, `LF`, from an  `DECLARE TRUE LITERALLY '0FFH', FALSE
  included file                         LITERALLY '0';` and the like
a call of a procedure that is         the procedure above its calls, or in
  declared below                        another module (`docs/old-sources.md`)
a variable that another procedure,    the declaration at the level of the module
  or a DO that has ended, declares
a variable or a procedure of another  its declaration with EXTERNAL
  module
`S.B` where the structure has no B    the member's name
`JADR ADDRESS DATA (.START)` of a     nothing: delete that jump to the program's
  label, after a byte 0C3H              beginning; `plm hex --jump` makes one
`CARRY`, `ZERO`, `SIGN`, `PARITY`,    these built-in names are left out: see
  `DEC`, `SCL`, `SCR`, `TIME`,          \"Differences from Intel's PL/M-80 V4\" in
  `STACKPTR`, `MEMORY`                  `docs/language.md`
\x0cC12

A name that is declared twice in one block, a label twice in one body, or a
label that has the name of a variable of its body. The line is that of the later
one. In old sources it is usually an included file that is pasted in twice, or
one name for a variable and a label. Nested blocks may each declare a name; that
is not a fault.

wrong.plm:

    M: DO;
        DECLARE DONE BYTE;
        DONE: OUTPUT(1) = 1;
    END M;

Printed: `C12 wrong.plm 3`. Cure: another name for one of the two.
\x0cC13

A use that does not fit what is named.

wrong.plm:

    M: DO;
        DECLARE V(2) BYTE;
        V = 1;
    END M;

Printed: `C13 wrong.plm 3`. Cure: `V(0) = 1;`.

You have                             Write
-----------------------------------  -------------------------------------------
an array without a subscript, or a   one subscript for an array, none for a
  scalar with one                      scalar
`CALL F;` of a procedure with a      `A = F;`, into a variable that is not used
  type
`A = P;` of a procedure without a    `CALL P;`, or a type in its heading
  type
`F = A;` in a procedure F, for its   `RETURN A;`
  value
`CALL P(1);` where P has two         as many arguments as parameters
  parameters
`CALL W;` through a variable         a DO CASE of calls, or a procedure of one
                                       instruction (`examples/mixed/README.md`)
`OUTPUT(N) = A;` with a variable N   a DO CASE over the ports meant
a parameter without a DECLARE in     `DECLARE X BYTE;` right after the heading
  its procedure
a parameter that is an array or a    an ADDRESS, and
  structure                            `DECLARE V BASED P (10) BYTE;`
a base that is a BYTE, an array, a   an ADDRESS variable of its own
  structure or BASED itself
`RETURN;` in a procedure with a      what the heading says
  type, or `RETURN 1;` in one
  without
`RETURN;` at the level of the        HALT
  module
`LENGTH(A)` of a scalar              `SIZE(A)`
`SIZE(T(0))`, `LENGTH(T(0).D)`       `SIZE(T) / LENGTH(T)`, `LENGTH(T.D)`
\x0cC14

An attribute or a declaration that is not allowed there:

- PUBLIC or EXTERNAL below the level of the module, or with BASED; EXTERNAL with
  AT, INITIAL or DATA.
- AT with INITIAL, DATA or BASED; INITIAL or DATA with BASED.
- BASED, AT, INITIAL or DATA for a parameter; AT, INITIAL or DATA for a variable
  of a REENTRANT procedure.
- For names in parentheses AT, INITIAL, DATA or `(*)`.
- A procedure in a REENTRANT one.
- An EXTERNAL procedure that is REENTRANT, has a statement, or declares more
  than its parameters.

In old sources it is usually something that Intel's compiler accepted and this
one does not: INITIAL or DATA after names in parentheses, AT with INITIAL,
EXTERNAL with DATA.

wrong.plm:

    M: DO;
        DECLARE (A, B) BYTE INITIAL (0, 0);
        OUTPUT(1) = A;
    END M;

Printed: `C14 wrong.plm 2`. Cure: `DECLARE A BYTE INITIAL (0), B BYTE INITIAL
(0);`.
\x0cC15

A constant that is not allowed there. In old sources it is usually a string that
is used as a value, or a value that is too large for a BYTE.

wrong.plm:

    M: DO;
        OUTPUT(1) = 'HELLO';
    END M;

Printed: `C15 wrong.plm 2`. Cure: one character at a time, from an array:
`DECLARE TEXT(*) BYTE DATA ('HELLO'), I BYTE;` and `DO I = 0 TO LAST(TEXT);
OUTPUT(1) = TEXT(I); END;`.

You have                                     Write
-------------------------------------------  -----------------------------------
a string of over two characters in an        an array with DATA, as above
  expression
`BYTE INITIAL (256)`, or `0 - 1` there       a number up to 255, or an ADDRESS
more values than the object has elements     a greater dimension, or `(*)`
`DECLARE A(0) BYTE`                          a dimension of 1 or more
`INPUT(256)`                                 a port of 0 to 255
`AT (.X)` where X is EXTERNAL or BASED, or   an X with a place of its own; in
  `INITIAL (.X)` where X is BASED              INITIAL it may be EXTERNAL
`BYTE INITIAL (.X)`                          `ADDRESS INITIAL (.X)`
a 17th parameter                             the location of a structure as one
                                               parameter
\x0cC16

A write to an object with DATA. DATA lies with the code, as it did in the ROM of
the time. Old sources also used it for initial values of variables.

wrong.plm:

    M: DO;
        DECLARE K BYTE DATA (1);
        K = 2;
    END M;

Printed: `C16 wrong.plm 3`. Cure: INITIAL for DATA.
\x0cC17

The location of a procedure, or of a variable or a parameter of a REENTRANT
procedure. These have no address that lasts, or none that the language could
use. The location of a BASED variable is what its base holds, so it is allowed
there too. In old sources it is usually a table of procedures that are called
through a variable, which is left out.

wrong.plm:

    M: DO;
        DECLARE W ADDRESS;
        P: PROCEDURE;
        END P;
        W = .P;
    END M;

Printed: `C17 wrong.plm 5`. Cure: a DO CASE with a CALL in each case, or a call
by an address (`examples/mixed/README.md`); and for variables, a procedure that
is not REENTRANT, or a variable outside it.
\x0cC18

Too many bytes: an object of over 65535, the variables of a REENTRANT procedure
of over 1024, or the variables of a module or its constants of over 65535 (then
the line is 0). No machine of the time had more memory, so in old sources it is
usually a buffer in a REENTRANT procedure, or a dimension that was misread.

wrong.plm:

    M: DO;
        DECLARE A(40000) ADDRESS;
    END M;

Printed: `C18 wrong.plm 2`. Cure: a smaller dimension; large variables outside a
REENTRANT procedure.
\x0cC19

A label after THEN or ELSE, or in a DO CASE, which no GOTO could reach. In old
sources it is usually the target of a jump from elsewhere into a branch, or a
mark for the reader that no GOTO uses.

wrong.plm:

    M: DO;
        IF 1 THEN L: OUTPUT(1) = 1;
    END M;

Printed: `C19 wrong.plm 2`. Cure: `IF 1 THEN DO; L: OUTPUT(1) = 1; END;`,
without the label if no GOTO uses it. A GOTO from outside the branch is then
C20: turn the branch into a procedure.
\x0cC20

A GOTO to what is not a label, or to a label that is not known there. GOTO
reaches labels in its own list of statements or in one around it, in the same
procedure. In old sources it is usually a jump out of a procedure to the main
program after an error, which is left out, or a jump into a loop.

wrong.plm:

    M: DO;
        GOTO L;
        DO WHILE 1;
            L: OUTPUT(1) = 1;
        END;
    END M;

Printed: `C20 wrong.plm 2`. Cure: the label in the list of the GOTO or around
it. To leave a procedure: a variable that each caller tests after its CALL, to
leave too. Or, if the program ends at the label anyway, a CALL of a procedure
that does the same and ends with HALT (both in `docs/old-sources.md`).
\x0cG1

The constants and the code of a module take more than 65535 bytes. The line is
0. A program of the time had to fit into its machine, so in old sources it is
usually parts that were loaded one after another (overlays) and are put together
in one module.

wrong.plm:

    M: DO;
        DECLARE TABLE(65535) BYTE DATA (1);
        OUTPUT(1) = TABLE(0);
    END M;

Printed: `G1 wrong.plm 0`. Cure: smaller constants; procedures for repeated
code; for overlays, a program for each. Several modules don't help, since all
code has to fit into memory (L3).
";
