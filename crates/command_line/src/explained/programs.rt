//! What is printed of the numbers of faults of the modules of a program together, of their places, and of files and options; and of the ends of runs. `tools/faults --write` makes it of docs/faults.md.

/// The pages, with form feeds between them. Each begins with its number, on a line of its own.
pub const PROGRAMS: [u8; 11202] = *b"\
J1

An EXTERNAL name that no module has as PUBLIC, used or not. \"Where\" is the name.
Usually a module was not named on the command line, or PUBLIC was forgotten. The
system calls of an old program are PUBLIC in modules that are there: those of
CP/M, such as `MON1`, in `examples/cpm/bdos.plm` for the console, and with those
for files in `examples/cpm/files.plm`; those of ISIS, such as `READ` and
`WRITE`, in `examples/isis/isis.plm`. Name one of these too. An object that is
to run under CP/M itself is linked with `examples/cpm/cpm.obj`.

wrong.plm:

    M: DO;
        SHOW: PROCEDURE EXTERNAL;
        END SHOW;
        CALL SHOW;
    END M;

Printed: `J1 SHOW 0`. Cure: name the module with `SHOW: PROCEDURE PUBLIC;` on
the command line too. If it is named, PUBLIC is missing where it declares SHOW.
\x0cJ2

Two PUBLICs with one name, in two modules. Often a module was named twice.

main.plm:

    MAIN: DO;
        DECLARE COUNT BYTE PUBLIC;
        COUNT = 0;
    END MAIN;

counter.plm:

    COUNTER: DO;
        DECLARE COUNT BYTE PUBLIC;
    END COUNTER;

Printed: `J2 COUNT 0`. Cure: PUBLIC in one module and EXTERNAL in the others; or
another name.
\x0cJ3

An EXTERNAL and its PUBLIC are declared differently: a procedure and a variable,
BYTE and ADDRESS, another dimension, other members, other parameters or another
result. A scalar is not an array of one element. Names of parameters and members
may differ. Objects have no types, so `plm link` of the same modules does not
notice. Neither did Intel's linker, so in old sources it is usually an array
that one module declares with `(1)` and another with its size, or a BYTE that is
an ADDRESS in the other module.

main.plm:

    MAIN: DO;
        DECLARE COUNT ADDRESS EXTERNAL;
        COUNT = 0;
    END MAIN;

counter.plm:

    COUNTER: DO;
        DECLARE COUNT BYTE PUBLIC;
    END COUNTER;

Printed: `J3 COUNT 0`. Cure: the same declaration in both. For an array whose
size only its own module knows, pass its address to a procedure.
\x0cJ4

No module has statements, or more than one has. The one whose statements are the
program is the main module; the others have only declarations and procedures,
and no `;` on its own. Usually the main module was not named on the command
line, or two programs were named at once. In old sources it is an extra `;`, for
example after `END;`, in one of the other modules. Or the program is a
procedure, to which a jump led that was deleted: CALL it in the last line of the
module.

wrong.plm:

    COUNTER: DO;
        DECLARE COUNT BYTE PUBLIC;
    END COUNTER;

Printed: `J4 - 0`. Cure: name the main module too; or delete the statements, and
any extra `;`, of the other modules.
\x0cJ5

An object with AT lies in the code or in the stack, or passes address 65535.
\"Where\" is its name. The addresses of an old program's machine (a screen, a
table of CP/M at 0) may be where the plan puts code or stack.

wrong.plm:

    M: DO;
        DECLARE SCREEN(1024) BYTE AT (0F000H);
        SCREEN(0) = ' ';
    END M;

Printed: `J5 SCREEN 0`. Cure: another plan, such as `--stack 57344`;
`docs/commands.md` has the default.
\x0cL1

Two objects have the same public name, or an object was named twice. S is public
in `show.obj`:

    $ ./plm link --out p.obj examples/objects/show.obj examples/objects/show.obj
    L1 S 0

Cure: name it once, or rename one of the two.
\x0cL2

An external name that no object has as public. `main.obj` calls S:

    $ ./plm link --out p.obj examples/objects/main.obj
    L2 S 0

Cure: name the object that has S as well. If it is named, PUBLIC is missing in
its source. Of system calls such as MON1 or OPEN it is one that
`docs/old-sources.md` names. All objects of a program are linked in one call; a
merge has no external names.
\x0cL3

The code, the data or the stack of all modules takes more than 65535 bytes. In
objects, gaps before pages count too. From sources:

wrong.plm:

    M: DO;
        DECLARE A(65535) BYTE;
        OUTPUT(1) = A(0);
    END M;

second.plm:

    N: DO;
        DECLARE B BYTE;
    END N;

Printed: `L3 - 0`. Cure: fewer or smaller variables.
\x0cL4

No object has a start, or several have one. Nothing in `show.obj` says where to
begin:

    $ ./plm link --out p.obj examples/objects/show.obj
    L4 - 0

For sources the same is J4. Cure: exactly one main module among the objects.
\x0cL5

A high byte of an address that moves by no multiple of 256. An object from an
assembler may have only the high byte of an address in an instruction. Linking
must then not change the low byte. `high.obj` loads the high byte of the address
of S, which lies 9 bytes after the beginning of `high.obj` here:

    $ ./plm link --out p.obj examples/objects/high.obj examples/objects/show.obj
    L5 - 0

Cure: let the segment begin at a page (alignment 1), as that of `page.obj` does,
or use both bytes. For the address of an absolute name only the second helps.
\x0cP1

Code, data and stack overlap. By default `--code` is 256, `--data` 16384, and
`--stack` 61440 with 1024 bytes. So code of more than 16128 bytes meets the
data, and data of more than 45056 bytes meets the stack. A part without bytes
overlaps nothing.

    $ ./plm run --data 256 examples/sieve.plm
    P1 - 0

For `plm hex --jump` it says that the three bytes of the jump overlap code, data
or stack:

    $ ./plm link --out p.obj examples/objects/show.obj examples/objects/high.obj
    $ ./plm hex --jump 256 p.obj
    P1 - 0

Cure: other places. `plm locate` of the objects prints how long code and data
are.
\x0cP2

Code, data or stack passes address 65535. By default the stack has 1024 bytes:

    $ ./plm run --stack 65000 examples/answer.plm
    P2 - 0

A jump of `plm hex --jump` has three bytes, so 65533 is its last place. Cure: a
lower address, or a smaller `--stack-size`.
\x0cP3

An external name is left: `locate` or `hex` was called with an object that still
calls others.

    $ ./plm locate examples/objects/main.obj
    P3 - 0

Cure: `plm link` it with them, and place the merge.
\x0cP4

The object has no start, so it is not a program.

    $ ./plm locate examples/objects/show.obj
    P4 - 0

Cure: link it with a main module.
\x0cP5

A high byte of an address whose base is not a multiple of 256, like L5, but by
the plan. With S at the beginning of the merge, `high.obj` and `show.obj` can be
linked:

    $ ./plm link --out p.obj examples/objects/show.obj examples/objects/high.obj
    $ ./plm locate --code 272 p.obj
    P5 - 0

Cure: `--code` and `--data` at multiples of 256, and for the stack the sum of
`--stack` and `--stack-size`.
\x0cP6

A segment that has to begin at a page would not, since `--code` or `--data` is
not a multiple of 256.

    $ ./plm link --out p.obj examples/objects/high.obj examples/objects/page.obj
    $ ./plm locate --code 272 p.obj
    P6 - 0

Cure: a multiple of 256. Compiled modules may lie anywhere.
\x0cU1

Over 64 sources. A program has at most 64 modules. With one named 65 times:

    $ ./plm run $(for i in $(seq 65); do echo examples/answer.plm; done)
    U1 - 0

Cure: put small modules together.
\x0cU2

A source of over 1,048,576 bytes. With one of that many blanks and one more:

    $ head -c 1048577 /dev/zero | tr '\\000' ' ' > blanks.plm
    $ ./plm run blanks.plm
    U2 blanks.plm 0

Cure: two modules.
\x0cU3

A file that can't be read or written: it does not exist, is a folder, or its
permissions don't allow it; or the disk is full. \"Where\" is the file, or `-` for
standard output (a pipe that was closed).

    $ ./plm run nosuch.plm
    U3 nosuch.plm 0

The name `-` does not read a source from standard input; the name `/dev/stdin`
does, if the system has one. Cure: the exact name of the file, with its capital
and small letters, seen from the folder in which the command is called;
permission to read it, or to write in its folder; and room on the disk. The
program at the other end of a pipe must read all of it.
\x0cU4

An option with a text that is not one of its values, a second file for `hex`, or
for `locate` without `--need`, or a number that `explain` does not know. \"Where\"
is that text, and the status is 2. Addresses are decimal, including that of
`hex --jump`.

    $ ./plm run --code 100H examples/answer.plm
    U4 100H 0

Cure: `--code 256`.
\x0cHALT

Line    Meaning                       Usually
------  ----------------------------  -------
`HALT`  the program ended (status 0)

With `--where` a line after it says in which line of the source that was
(`docs/commands.md`).
\x0cLIMIT

Line     Meaning                Usually
-------  ---------------------  ------------------------------------------------
`LIMIT`  the budget of          a loop that never ends (\"Why does my loop not
           `--limit` was used     end?\" in `docs/language.md`); or a long run: a
           up (status 3)          greater `--limit`

With `--where` a line after it says in which line of the source that was
(`docs/commands.md`).
\x0cOUTSIDE

Line                Meaning                          Usually
------------------  -------------------------------  ---------------------------
`OUTSIDE DIVIDE`    `/` or MOD by 0 (status 5, like  an empty table, a count of
                      the next three)                  0
`OUTSIDE BYTE`      a byte was read or written that  a subscript too large, a
                      is not declared, or past the     base that was never set,
                      dimension of a variable in a     an absolute address
                      REENTRANT procedure              without AT
`OUTSIDE CONSTANT`  a byte of DATA or of a constant  MOVE or a BASED object into
                      list was written                 a text
`OUTSIDE STACK`     a call for which the stack has   a recursion without end, or
                      no room                          a deep one: a larger
                                                       `--stack-size`, as
                                                       `plm locate --need` says

With `--where` a line after it says in which line of the source that was
(`docs/commands.md`).

Only `plm interpret` prints OUTSIDE. `plm run` does not notice, and goes on with
whatever is in memory, so a program that behaves oddly is best tried with
`plm interpret`.
\x0cILLEGAL

Line       Meaning                           Usually
---------  --------------------------------  -----------------------------------
`ILLEGAL`  the machine met a code that is    a program that went outside before:
             no instruction (status 4)         `plm interpret` stops there

With `--where` a line after it says in which line of the source that was
(`docs/commands.md`).
\x0cPORT

Line    Meaning                   Usually
------  ------------------------  -------
`PORT`  a port failed (status 4)

With `--where` a line after it says in which line of the source that was
(`docs/commands.md`).
\x0cDRY

Line   Meaning                                           Usually
-----  ------------------------------------------------  -----------------------
`DRY`  with `--until-dry`: a port was to be read past    the program waits for
         its input (status 3)                              more of it

With `--where` a line after it says in which line of the source that was
(`docs/commands.md`).
";
