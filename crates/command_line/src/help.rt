//! What `plm --help` prints, beside the lines that `clap` makes of the arguments.

// A text. Its words in capitals stand for lines that several commands have: ASKING for what asks for an explanation, the others
// for lines of faults. These have the number of a fault, and what it means in the words of the fault itself (`tables` compares
// the two). X is the name, or the text, that is printed with the number. The brackets hold the text that was joined so far.
macro_rules! text_of {
    ([$($done:literal)*]) => { concat!($($done),*) };
    // of what asks for an explanation
    ([$($done:literal)*] ASKING $($rest:tt)*) => {
        text_of!([$($done)* "With each command, before or after its name:
  --explain        shows where a fault is, what it means and what is likely wrong
  --explain=TABLE  also tells from where its line comes, by a table of plm convert --lines

"] $($rest)*)
    };
    // of the text of a source
    ([$($done:literal)*] TEXTS $($rest:tt)*) => {
        text_of!([$($done)*] WORDS "  C7      a word that cannot stand here
  C8      nested more than 64 levels deep
  C9      a name after END that is not the name of what ends
  C11     a name that is not declared here
  C12     a name that is declared twice
  C13     a use that does not go with what is named
  C14     an attribute or a declaration that cannot stand here
  C15     a constant or a list of constants that is not allowed here
  C16     a write to an object with DATA
  C17     the location of a procedure, or of a variable of a REENTRANT procedure
  C18     too many bytes
  C18     a data segment of over 65535 bytes
  C18     constants of over 65535 bytes
  C19     a label that cannot stand here
  C20     a GOTO to a label that is not known here
" $($rest)*)
    };
    // of the words of a source
    ([$($done:literal)*] WORDS $($rest:tt)*) => {
        text_of!([$($done)* "  C1      a character that is not valid here
  C2      a string or a comment that is not closed
  C3      a number over 65535, or a digit that its base does not have
  C4      a name of more than 31 characters
  C5      LITERALLY definitions within one another more than 16 deep
  C5      more than 2097152 words with those of LITERALLY definitions
  C6      a quote in the text of a LITERALLY definition
  C6      a name that LITERALLY defines already
"] $($rest)*)
    };
    // of the code of a module
    ([$($done:literal)*] CODE $($rest:tt)*) => {
        text_of!([$($done)* "  G1      a code segment of more than 65535 bytes
"] $($rest)*)
    };
    // of the modules of a program together
    ([$($done:literal)*] MODULES $($rest:tt)*) => {
        text_of!([$($done)* "  J1      X is EXTERNAL, and no module has it as PUBLIC
  J2      X is PUBLIC twice
  J3      X is declared otherwise where it is PUBLIC
  J4      not just one module is a main module
"] $($rest)*)
    };
    // of where the modules of a program lie
    ([$($done:literal)*] SEGMENTS $($rest:tt)*) => {
        text_of!([$($done)* "  J5      X lies in the code or in the stack, or passes the end of memory
  L3      code or data of more than 65535 bytes
"] $($rest)*)
    };
    // of a merge of objects
    ([$($done:literal)*] MERGES $($rest:tt)*) => {
        text_of!([$($done)* "  L1      the public name X stands in the modules twice
  L2      no module has the public name X
  L3      a merged segment of more than 65535 bytes
  L4      no module is a main module, or several are
  L5      a high byte is fixed to what moves by no multiple of 256
"] $($rest)*)
    };
    // of an object file
    ([$($done:literal)*] OBJECTS $($rest:tt)*) => {
        text_of!([$($done)* "  O1      the file ends within a record, or without an end-of-file record
  O2      a record whose bytes don't add up to 0
  O3      a record with a length of 0 or of more than 1028
  O4      a type that no record of this profile has
  O5      a record where it may not stand, or bytes after the end of the file
  O6      a record with a body that it may not have
  O7      a content that passes its segment, overlaps another, or doesn't ascend
  O8      a fix outside its content, or one that shares a byte with another
  O9      an alignment that is not served
"] $($rest)*)
    };
    // of a plan
    ([$($done:literal)*] PLACES $($rest:tt)*) => {
        text_of!([$($done)* "  P1      two of the code, the data and the stack overlap
  P2      the code, the data or the stack passes the end of memory
"] $($rest)*)
    };
    // of an object that is placed
    ([$($done:literal)*] IMAGES $($rest:tt)*) => {
        text_of!([$($done)* "  P3      an external name is left
  P4      the module has no start
"] PAGES $($rest)*)
    };
    // of what has to begin at a page
    ([$($done:literal)*] PAGES $($rest:tt)*) => {
        text_of!([$($done)* "  P5      a high byte is fixed to what would begin at no multiple of 256
  P6      a page-aligned segment would begin at no multiple of 256
"] $($rest)*)
    };
    // of the number of sources
    ([$($done:literal)*] COUNTS $($rest:tt)*) => {
        text_of!([$($done)* "  U1      more than 64 sources
"] $($rest)*)
    };
    // of the length of a source
    ([$($done:literal)*] LENGTHS $($rest:tt)*) => {
        text_of!([$($done)* "  U2      a source of more than 1048576 bytes
"] $($rest)*)
    };
    // of files
    ([$($done:literal)*] FILES $($rest:tt)*) => {
        text_of!([$($done)* "  U3      a file can't be read or written
"] $($rest)*)
    };
    // of options
    ([$($done:literal)*] VALUES $($rest:tt)*) => {
        text_of!([$($done)* "  U4      `X` is not a value of its option
"] $($rest)*)
    };
    // of memory
    ([$($done:literal)*] MEMORY $($rest:tt)*) => {
        text_of!([$($done)* "  MEMORY  out of memory
"] $($rest)*)
    };
    ([$($done:literal)*] $next:literal $($rest:tt)*) => { text_of!([$($done)* $next] $($rest)*) };
}

/// What help says of a command: what it does, and what it prints and answers.
#[derive(Clone, Copy)]
pub(crate) struct Teaching {
    pub(crate) about: &'static str,
    pub(crate) printed: &'static str,
}

/// What `plm --version` prints after the name of the program.
pub(crate) const VERSION: &str = "1.0";

pub(crate) const PLM: Teaching = Teaching {
    about: "\
Compiles PL/M-80 sources, and runs their image on a simulated 8080 or interprets them;
links object files, and places them in memory",
    printed: PRINTED_BY_PLM,
};

pub(crate) const COMPILE: Teaching = Teaching {
    about: "Compiles a source to an object file",
    printed: PRINTED_BY_COMPILE,
};

pub(crate) const RUN: Teaching = Teaching {
    about: "Builds sources to an image, places it in memory, and runs it on a simulated 8080",
    printed: PRINTED_BY_RUN,
};

pub(crate) const INTERPRET: Teaching = Teaching {
    about: "Builds sources, and carries out what they mean, with no machine",
    printed: PRINTED_BY_INTERPRET,
};

pub(crate) const LINK: Teaching = Teaching {
    about: "Merges object files to one",
    printed: PRINTED_BY_LINK,
};

pub(crate) const LOCATE: Teaching = Teaching {
    about: "Prints where the parts of an object file lie in memory, or how much stack sources need",
    printed: PRINTED_BY_LOCATE,
};

pub(crate) const HEX: Teaching = Teaching {
    about: "Places an object file in memory, and prints its bytes as Intel HEX",
    printed: PRINTED_BY_HEX,
};

pub(crate) const LIST: Teaching = Teaching {
    about: "Lists sources with their code, or the bytes of an object file with their instructions",
    printed: PRINTED_BY_LIST,
};

pub(crate) const SYMBOLS: Teaching = Teaching {
    about: "Prints where the procedures, the variables and the lines of sources lie in memory",
    printed: PRINTED_BY_SYMBOLS,
};

pub(crate) const EXECUTE: Teaching = Teaching {
    about: "Merges object files, places the merge in memory, and runs it on a simulated 8080",
    printed: PRINTED_BY_EXECUTE,
};

pub(crate) const CONVERT: Teaching = Teaching {
    about: "Converts an old source: control lines, INCLUDE, listings",
    printed: PRINTED_BY_CONVERT,
};

pub(crate) const EXPLAIN: Teaching = Teaching {
    about: "Explains the number of a fault: what it means, an example and the cure; or how a run ended",
    printed: PRINTED_BY_EXPLAIN,
};

pub(crate) const RUN_LIMIT: &str = "The most instructions that are run, to 1000000000000";

pub(crate) const INTERPRET_LIMIT: &str =
    "The budget: the most calls, GOTOs and turns of loops, to 1000000000000";

const PRINTED_BY_PLM: &str = text_of!([] "\
A source is a module, as in this file of one line:
  M: DO; OUTPUT(1) = 42; END M;
Both `plm run FILE` and `plm interpret FILE` print
  OUT 01 2A
  HALT

" ASKING "\
Numbers, where X is the name or the text that is printed with one:
" TEXTS CODE MODULES SEGMENTS MERGES OBJECTS PLACES IMAGES COUNTS LENGTHS FILES VALUES MEMORY "\n\
Read more in the folder docs:
  language.md     a manual of the language; definition.md has its exact rules
  old-sources.md  from a listing of the time to a run
  faults.md       each number in plain words, with an example and its cure;
                  plm explain NUMBER prints what it says of one
  commands.md     the commands, their options and what they print");

const PRINTED_BY_COMPILE: &str = text_of!([] "\
The source is one module. Names that it declares EXTERNAL are found by `plm link`.

Prints nothing. The file is written once the source was compiled; until then it stays as it was.
A write that fails leaves a beginning of the object, which no command takes for a whole one.

Exit status:
  0  the object file was written, or help was asked for
  1  the source was refused, memory ran out, or a file can't be read or written
  2  the command line is wrong

A refusal prints `number file line` to standard error, where the line is 0 if it is of none.

Example: compile two modules, link them, and print the bytes of the program
  plm compile main.plm main.obj
  plm compile show.plm show.obj
  plm link --out program.obj main.obj show.obj
  plm hex program.obj

" ASKING "\
Numbers, where X is the name or the text that is printed with one:
" TEXTS CODE LENGTHS FILES MEMORY "\n\
Read more in the folder docs: faults.md (each number with an example and its cure), commands.md");

const PRINTED_BY_RUN: &str = text_of!([] "\
The sources are the modules of one program, with one main module.

Prints a line for each byte at a port, and then how the run ended:
  OUT pp vv  the program wrote the byte vv to port pp, both in hexadecimal digits
  IN pp vv   the program read the byte vv from port pp; a port with no input gives FF
  HALT       the program halted, or reached the end of its main module
  LIMIT      as many instructions were run as --limit says
  ILLEGAL    an undocumented instruction code was met
  PORT       a port failed
  DRY        with --until-dry: a port was to be read past its input
With --count a line before that last one says how many instructions were carried out:
  STEPS n    in decimal, HLT among them
With --where a line after that last one says where the run stood, at what it was to do next or at the
HLT; in a routine, as that of a division, at the statement that called it:
  AT module n  line n of the source of that module
  AT aaaa      an address in hexadecimal digits, outside the code of all modules
With --count, --until-dry or --where all is printed once the run has ended.

With --map it first prints where each object lies, by its address and its number of bytes:
  MAP module name aaaa n

Input is groups joined by `/`, each a port, a colon and the bytes that the port gives, all in
hexadecimal digits: 01:0904/02:FF gives 09 and then 04 at port 01, and FF at port 02.
With --input-file 00:text.txt port 00 gives the bytes of the file text.txt, and its events are not
printed; 00:- is standard input. A port has one file, or bytes of --input.
With --output-file 01:out.bin the bytes that go to port 01 are written to the file out.bin when the
run has ended, and its events are not printed. With 01:- they are all that standard output has, and
the lines go to standard error. No port and no file is named twice.

Each byte of memory is what --fill says at the start, but for the bytes of --memory: groups joined
by `/`, each an address of four hexadecimal digits, a colon and the bytes from there on, so that
0080:0161/005C:FF puts 01 at 0080, 61 at 0081, and FF at 005C. The image comes over that.

Exit status:
  0  the program halted, or help was asked for
  1  a source was refused, memory ran out, or a file can't be read or written
  2  the command line is wrong, or a value in it
  3  LIMIT or DRY
  4  ILLEGAL or PORT

A refused source prints `number file line` to standard error, and a refused value `U4 text 0`.

Example: a file with the line
  M: DO; OUTPUT(1) = 42; END M;
prints
  OUT 01 2A
  HALT

" ASKING "\
Numbers, where X is the name or the text that is printed with one:
" TEXTS CODE MODULES SEGMENTS PLACES COUNTS LENGTHS FILES VALUES MEMORY "\n\
Read more in the folder docs: faults.md (each number with an example and its cure), commands.md");

const PRINTED_BY_INTERPRET: &str = text_of!([] "\
The sources are the modules of one program, with one main module.

Prints a line for each byte at a port, and then how the program ended:
  OUT pp vv         the program wrote the byte vv to port pp, both in hexadecimal digits
  IN pp vv          the program read the byte vv from port pp; a port with no input gives FF
  HALT              the program halted, or reached the end of its main module
  LIMIT             the budget of --limit was used up
  PORT              a port failed
  DRY               with --until-dry: a port was to be read past its input
  OUTSIDE DIVIDE    it divided by 0
  OUTSIDE BYTE      it read or wrote a byte that nothing declares
  OUTSIDE CONSTANT  it wrote a byte of a constant
  OUTSIDE STACK     its calls took more room than --stack-size says
After OUTSIDE the language promises nothing more of the program.
With --count a line before that last one says how much of the budget was used:
  STEPS n           in decimal
With --where a line after that last one says where the program stood, at what it was to do next, at what
went outside, or at its end:
  AT module n       line n of the source of that module

With --map it first prints where each object lies, by its address and its number of bytes:
  MAP module name aaaa n

Input is groups joined by `/`, each a port, a colon and the bytes that the port gives, all in
hexadecimal digits: 01:0904/02:FF gives 09 and then 04 at port 01, and FF at port 02.
With --input-file 00:text.txt port 00 gives the bytes of the file text.txt, and its events are not
printed; 00:- is standard input. A port has one file, or bytes of --input.
With --output-file 01:out.bin the bytes that go to port 01 are written to the file out.bin when the
run has ended, and its events are not printed. With 01:- they are all that standard output has, and
the lines go to standard error. No port and no file is named twice.

Each byte of memory is what --fill says at the start, but for the bytes of --memory: groups joined
by `/`, each an address of four hexadecimal digits, a colon and the bytes from there on, so that
0080:0161/005C:FF puts 01 at 0080, 61 at 0081, and FF at 005C. What the sources initialise comes
over that.

Exit status:
  0  the program ended, or help was asked for
  1  a source was refused, memory ran out, or a file can't be read or written
  2  the command line is wrong, or a value in it
  3  LIMIT or DRY
  4  PORT
  5  OUTSIDE

A refused source prints `number file line` to standard error, and a refused value `U4 text 0`.

Example: a file with the line
  M: DO; OUTPUT(1) = 42; END M;
prints
  OUT 01 2A
  HALT

" ASKING "\
Numbers, where X is the name or the text that is printed with one:
" TEXTS CODE MODULES SEGMENTS PLACES COUNTS LENGTHS FILES VALUES MEMORY "\n\
Read more in the folder docs: faults.md (each number with an example and its cure), commands.md");

const PRINTED_BY_LINK: &str = text_of!([] "\
One of the objects is a main module, and each external name of an object is a public name of
another. Their order is the order of their code and data in the merged object.

Prints nothing. The file is written once all objects were read and merged; until then it stays
as it was. A write that fails leaves a beginning of the merged object, which no command takes
for a whole one.

Exit status:
  0  the merged object was written, or help was asked for
  1  an object or the merge was refused, memory ran out, or a file can't be read or written
  2  the command line is wrong

A refusal prints `number where 0` to standard error: the file of an object (O1 to O9), the name
of a public that is there twice (L1) or of an external that none has (L2), or `-` (L3 to L5).

Example: link two objects, and print the bytes of the program
  plm link --out program.obj main.obj show.obj
  plm hex program.obj

" ASKING "\
Numbers, where X is the name or the text that is printed with one:
" MERGES OBJECTS FILES MEMORY "\n\
Read more in the folder docs: faults.md (each number with an example and its cure), commands.md");

const PRINTED_BY_LOCATE: &str = text_of!([] "\
The object is a main module without external names, such as `plm link` writes.

Prints addresses as four hexadecimal digits, and numbers of bytes in decimal ones:
  CODE aaaa n       where the code begins, and how many bytes it has
  DATA aaaa n       the same of the data
  STACK aaaa n      the same of the stack, as --stack and --stack-size say
  START aaaa        where the program starts
  PUBLIC name aaaa  a public name, in the order of the object

With --need the files are the sources of a program, and it prints one line:
  NEED n     with n bytes of stack, in decimal, the program never comes to OUTSIDE STACK
  NEED NONE  its procedures may call each other in a circle, so no number is known to do
The plan changes nothing then, and nothing is built.

Exit status:
  0  all was printed, or help was asked for
  1  the object or its place or a source was refused, memory ran out, or a file can't be read
  2  the command line is wrong, or a value in it

A refused object prints `number file 0` to standard error, a refused place `number - 0`, a
refused source `number file line`, and a refused value or a second file `U4 text 0`.

Example: an object with nine bytes of code and a public name S at offset 4 prints
  CODE 0100 9
  DATA 4000 0
  STACK F000 1024
  START 0100
  PUBLIC S 0104

" ASKING "\
Numbers, where X is the name or the text that is printed with one:
" TEXTS MODULES OBJECTS PLACES IMAGES COUNTS LENGTHS FILES VALUES MEMORY "\n\
Read more in the folder docs: faults.md (each number with an example and its cure), commands.md");

const PRINTED_BY_HEX: &str = text_of!([] "\
The object is a main module without external names, such as `plm link` writes.

Prints a line for each 16 bytes, by rising addresses, and an end line:
  :nnaaaa00bb..ss  nn bytes bb from address aaaa on, and a checksum
  :00000001FF      the end

With --jump it also prints the three bytes of a jump to the start, at that address: a ROM that
is started at 0 takes --jump 0 --code 3, and a program for CP/M --jump 256 --code 259. A jump
that overlaps the code, the data or the stack is P1, and one that passes the end of memory P2.

Exit status:
  0  all was printed, or help was asked for
  1  the object or its place was refused, memory ran out, or a file can't be read
  2  the command line is wrong, or a value in it

A refused object prints `number file 0` to standard error, a refused place `number - 0`, and a
refused value or a second file `U4 text 0`.

Example: an object with the code cd 04 00 76 3e 08 d3 04 c9, whose bytes 04 00 are an address in
the code, prints
  :09010000CD0401763E08D304C9C8
  :00000001FF

" ASKING "\
Numbers, where X is the name or the text that is printed with one:
" OBJECTS PLACES IMAGES FILES VALUES MEMORY "\n\
Read more in the folder docs: faults.md (each number with an example and its cure), commands.md");

const PRINTED_BY_LIST: &str = text_of!([] "\
The sources are the modules of one program, with one main module. A single file that begins with the
byte 02 is an object: a main module without external names, such as `plm link` writes.

Prints each line of a source with its number in five columns, and below it the code of what begins
there, a line for each instruction, as
        7 N = N + 1;
          0103 21 00 40  LXI H,N
          0106 34        INR M
After the last line come the constants of the module, the routines that it calls and what its data
are at the start, and then
  CODE module aaaa n  where its code begins, and how many bytes it has
  DATA module aaaa n  the same of its data

Of an object it prints a line for each instruction, by rising addresses.
  aaaa bb bb bb  text  the address, the bytes there, and the instruction that they encode
  aaaa bb        DB bb  a byte that is shown alone
  name:          the line before that of the address where a name lies
Addresses, bytes and numbers in a text are hexadecimal digits. In a listing of sources the name of a
procedure, of a variable or of a routine stands in place of its address. In an object the bytes of the
data are shown alone, and in the code those that begin no whole instruction. Constants lie among the
code too, so that lines may show them as instructions that the program never comes to.

Exit status:
  0  all was printed, or help was asked for
  1  a source, the object or its place was refused, memory ran out, or a file can't be read
  2  the command line is wrong, or a value in it

A refused source prints `number file line` to standard error, a refused object `number file 0`, a
refused place `number - 0`, and a refused value `U4 text 0`.

Example: an object with the code cd 04 00 76 3e 08 c9, whose bytes 04 00 are an address in the
code, and a public name S at offset 4 prints
  0100 CD 04 01  CALL 0104
  0103 76        HLT
  S:
  0104 3E 08     MVI A,08
  0106 C9        RET

" ASKING "\
Numbers, where X is the name or the text that is printed with one:
" TEXTS CODE MODULES SEGMENTS OBJECTS PLACES IMAGES COUNTS LENGTHS FILES VALUES MEMORY "\n\
Read more in the folder docs: faults.md (each number with an example and its cure), commands.md");

const PRINTED_BY_SYMBOLS: &str = text_of!([] "\
The sources are the modules of one program, with one main module.

Prints for each module, in the order of its text, addresses as four hexadecimal digits, and numbers in
decimal ones:
  PROC module name aaaa n           a procedure, and how many bytes its code has
  VAR module procedure name aaaa n  a variable or a constant, and how many bytes it has; `-` stands
                                    for the procedure where it is declared in none
  LINE module n aaaa                where the first code of what begins in line n lies

Exit status:
  0  all was printed, or help was asked for
  1  a source was refused, memory ran out, or a file can't be read
  2  the command line is wrong, or a value in it

A refused source prints `number file line` to standard error, and a refused value `U4 text 0`.

Example: a file with the line
  M: DO; DECLARE A BYTE; A = 42; END M;
prints
  VAR M - A 4000 1
  LINE M 1 0100

" ASKING "\
Numbers, where X is the name or the text that is printed with one:
" TEXTS CODE MODULES SEGMENTS PLACES COUNTS LENGTHS FILES VALUES MEMORY "\n\
Read more in the folder docs: faults.md (each number with an example and its cure), commands.md");

const PRINTED_BY_EXECUTE: &str = text_of!([] "\
The objects are merged as `plm link` merges them, and the merge is placed as `plm hex` places it:
one of them is a main module, and each external name is a public name of another.

Prints what `plm run` prints, a line for each byte at a port, and then how the run ended:
  OUT pp vv  the program wrote the byte vv to port pp, both in hexadecimal digits
  IN pp vv   the program read the byte vv from port pp; a port with no input gives FF
  HALT       the program halted
  LIMIT      as many instructions were run as --limit says
  ILLEGAL    an undocumented instruction code was met
  PORT       a port failed
  DRY        with --until-dry: a port was to be read past its input
With --count a line before that last one says how many instructions were carried out:
  STEPS n    in decimal, HLT among them
With --where a line after that last one says where the machine stood, at the instruction that it was
to carry out next, at the illegal code, or at the HLT; plm list with the same options shows which:
  AT aaaa    its address, in hexadecimal digits
With --count, --until-dry or --where all is printed once the run has ended.

Input is groups joined by `/`, each a port, a colon and the bytes that the port gives, all in
hexadecimal digits: 01:0904/02:FF gives 09 and then 04 at port 01, and FF at port 02.
With --input-file 00:text.txt port 00 gives the bytes of the file text.txt, and its events are not
printed; 00:- is standard input. A port has one file, or bytes of --input.
With --output-file 01:out.bin the bytes that go to port 01 are written to the file out.bin when the
run has ended, and its events are not printed. With 01:- they are all that standard output has, and
the lines go to standard error. No port and no file is named twice.

Each byte of memory is what --fill says at the start, but for the bytes of --memory: groups joined
by `/`, each an address of four hexadecimal digits, a colon and the bytes from there on, so that
0080:0161/005C:FF puts 01 at 0080, 61 at 0081, and FF at 005C. The image comes over that.

Exit status:
  0  the program halted, or help was asked for
  1  an object, the merge or its place was refused, memory ran out, or a file can't be read
     or written
  2  the command line is wrong, or a value in it
  3  LIMIT or DRY
  4  ILLEGAL or PORT

A refused object prints `number file 0` to standard error, a refused merge the name of a public
that is there twice (L1) or of an external that none has (L2), or `-`, a refused place
`number - 0`, and a refused value `U4 text 0`.

Example: run a module together with one that an assembler made
  plm compile main.plm main.obj
  plm execute main.obj show.obj

" ASKING "\
Numbers, where X is the name or the text that is printed with one:
" MERGES OBJECTS PLACES PAGES FILES VALUES MEMORY "\n\
Read more in the folder docs: faults.md (each number with an example and its cure), commands.md");

const PRINTED_BY_EXPLAIN: &str = text_of!([] "\
Prints what docs/faults.md says of the number, or of the word with which a run ended, in lines of 80
columns. The case of its letters does not count. No file is read.

Exit status:
  0  it was printed, or help was asked for
  1  memory ran out, or standard output can't be written
  2  the command line is wrong, or no fault has the number, and no run ends with it

A number that no fault has is refused as `U4 text 0` on standard error.

Example: a run printed C7 prog.plm 4
  plm explain C7

" ASKING "\
Numbers that can occur here, where X is the text that is printed with one:
" FILES VALUES MEMORY "\n\
Read more in the folder docs: faults.md (all numbers), commands.md");

const PRINTED_BY_CONVERT: &str = text_of!([] "\
Prints the source, which was written for a compiler of the time, in this language. Lines that begin
with $ become empty, form feeds are taken away, words such as GO TO and LABEL are changed; all else
stays as it is. A source that is a module of this language already is printed as it is. The source is
the whole file, or with --listing what a listing holds, or with --cards the columns 1 to 72.

The file of an INCLUDE is put in, but not into a listing: it is looked for in each DIR and then beside
FILE, as written, in capital and in small letters. Lines of an IF that do not apply become empty;
switches are set by --set and by SET.

With --lines it also writes TABLE, which tells of each line that is printed, in order, the file and
the line from which it comes (plm --explain=TABLE looks a fault's line up in it):
  NAME LINE

What it knows and can't cure is left, and told on standard error, a line each:
  FILE LINE: what, and what to write

Exit status:
  0  it was printed with nothing told, or help was asked for
  1  something was told, or the source was refused, or TABLE or standard output can't be written
  2  the command line is wrong

Example: convert a source of the time, and run what comes out
  plm convert old.src > new.plm
  plm run new.plm

Example: the same of a listing that such a compiler printed
  plm convert --listing old.lst > new.plm

" ASKING "\
Numbers that can occur here, where X is the name that is printed with one:
" WORDS LENGTHS FILES MEMORY "\n\
Read more in the folder docs: old-sources.md (from a listing to a run), convert.md (the rules)");
