//! What is printed of the numbers of faults of object files, HEX texts and assembled code, and of memory. `tools/faults --write` makes it of docs/faults.md.

/// The pages, with form feeds between them. Each begins with its number, on a line of its own.
pub const FILES: [u8; 12144] = *b"\
O1

The file ends within a record, or without the end of file record: it was cut
off, is empty, or is a text. An object whose writing failed is O1 too.

    $ head -c 20 examples/objects/main.obj > bad.obj
    $ ./plm locate bad.obj
    O1 bad.obj 0

These say that a file is not an object of the profile in `docs/formats.md`,
whose table gives the exact rules. \"Where\" is the file. The most common causes:
the file is a source, a HEX text or a library, and not an object; it was sent as
text, which changes the bytes 0AH and 0DH; or it was cut off. Or a tool of the
time made it, with records that are refused, such as local symbols and line
numbers. Cure: the right file; send it as binary; make it again with
`plm compile`, or with the assembler without its symbols.
\x0cO2

The bytes of a record don't add up to 0: a byte was changed.

    $ LC_ALL=C sed 's/S/T/' examples/objects/main.obj > bad.obj
    $ ./plm locate bad.obj
    O2 bad.obj 0

These say that a file is not an object of the profile in `docs/formats.md`,
whose table gives the exact rules. \"Where\" is the file. The most common causes:
the file is a source, a HEX text or a library, and not an object; it was sent as
text, which changes the bytes 0AH and 0DH; or it was cut off. Or a tool of the
time made it, with records that are refused, such as local symbols and line
numbers. Cure: the right file; send it as binary; make it again with
`plm compile`, or with the assembler without its symbols.
\x0cO3

A record of length 0 or of more than 1028 bytes: usually not an object at all,
but a source or a HEX text.

    $ ./plm locate examples/answer.plm
    O3 examples/answer.plm 0

These say that a file is not an object of the profile in `docs/formats.md`,
whose table gives the exact rules. \"Where\" is the file. The most common causes:
the file is a source, a HEX text or a library, and not an object; it was sent as
text, which changes the bytes 0AH and 0DH; or it was cut off. Or a tool of the
time made it, with records that are refused, such as local symbols and line
numbers. Cure: the right file; send it as binary; make it again with
`plm compile`, or with the assembler without its symbols.
\x0cO4

A type of record that the profile does not have: local symbols, line numbers,
the records of libraries of Intel's tools. A record of type 2CH, with which a
library begins:

    $ printf '\\054\\001\\000\\323' > bad.obj
    $ ./plm locate bad.obj
    O4 bad.obj 0

These say that a file is not an object of the profile in `docs/formats.md`,
whose table gives the exact rules. \"Where\" is the file. The most common causes:
the file is a source, a HEX text or a library, and not an object; it was sent as
text, which changes the bytes 0AH and 0DH; or it was cut off. Or a tool of the
time made it, with records that are refused, such as local symbols and line
numbers. Cure: the right file; send it as binary; make it again with
`plm compile`, or with the assembler without its symbols.
\x0cO5

A record where it is not allowed, or bytes after the end of the file: files put
together with `cat`, or zeros and ^Z that fill the last disk block. Or a tool of
the time has another order: here the header comes first, then external names,
public names, and contents, each followed by its fixes.

    $ cat examples/objects/main.obj examples/objects/show.obj > bad.obj
    $ ./plm locate bad.obj
    O5 bad.obj 0

Cure: `plm link` the files; cut the file where its end of file record ends (0EH,
01H, 00H, 0F1H). For another order see O6.

These say that a file is not an object of the profile in `docs/formats.md`,
whose table gives the exact rules. \"Where\" is the file. The most common causes:
the file is a source, a HEX text or a library, and not an object; it was sent as
text, which changes the bytes 0AH and 0DH; or it was cut off. Or a tool of the
time made it, with records that are refused, such as local symbols and line
numbers. Cure: the right file; send it as binary; make it again with
`plm compile`, or with the assembler without its symbols.
\x0cO6

A body that its record may not have: a name with small letters or other
characters, as `?`; a name that occurs twice; a segment of common data, or
Intel's segment 4 (MEMORY), also with length 0; a content or a start that is
absolute, as ASEG and LOCATE make them. A header with the module's name in small
letters:

    $ printf '\\002\\011\\000\\001a\\000\\000\\001\\004\\000\\003\\213' > bad.obj
    $ tail -c +13 examples/objects/main.obj >> bad.obj
    $ ./plm locate bad.obj
    O6 bad.obj 0

Cure: `examples/assemble`, where there is the assembler source. What is absolute
also runs from its HEX text: \"An old HEX file\" in `docs/old-sources.md`.

These say that a file is not an object of the profile in `docs/formats.md`,
whose table gives the exact rules. \"Where\" is the file. The most common causes:
the file is a source, a HEX text or a library, and not an object; it was sent as
text, which changes the bytes 0AH and 0DH; or it was cut off. Or a tool of the
time made it, with records that are refused, such as local symbols and line
numbers. Cure: the right file; send it as binary; make it again with
`plm compile`, or with the assembler without its symbols.
\x0cO7

A content that passes its segment, overlaps another, or doesn't ascend: an
assembler program whose ORG went back. A header that says that the code has 1
byte, before 4 bytes of code:

    $ printf '\\002\\011\\000\\001A\\000\\000\\001\\001\\000\\003\\256' > bad.obj
    $ tail -c +13 examples/objects/main.obj >> bad.obj
    $ ./plm locate bad.obj
    O7 bad.obj 0

Cure: the text of the program in ascending order.

These say that a file is not an object of the profile in `docs/formats.md`,
whose table gives the exact rules. \"Where\" is the file. The most common causes:
the file is a source, a HEX text or a library, and not an object; it was sent as
text, which changes the bytes 0AH and 0DH; or it was cut off. Or a tool of the
time made it, with records that are refused, such as local symbols and line
numbers. Cure: the right file; send it as binary; make it again with
`plm compile`, or with the assembler without its symbols.
\x0cO8

A fix outside its content, or two that share a byte: a fault of the tool that
made the file. The word at offset 3 of a content of 4 bytes:

    $ head -c 30 examples/objects/main.obj > bad.obj
    $ printf '\\040\\006\\000\\003\\000\\000\\003\\000\\324' >> bad.obj
    $ tail -c 12 examples/objects/main.obj >> bad.obj
    $ ./plm locate bad.obj
    O8 bad.obj 0

These say that a file is not an object of the profile in `docs/formats.md`,
whose table gives the exact rules. \"Where\" is the file. The most common causes:
the file is a source, a HEX text or a library, and not an object; it was sent as
text, which changes the bytes 0AH and 0DH; or it was cut off. Or a tool of the
time made it, with records that are refused, such as local symbols and line
numbers. Cure: the right file; send it as binary; make it again with
`plm compile`, or with the assembler without its symbols.
\x0cO9

An alignment other than byte, or page for code and data. Intel's tools know more
kinds, such as *in a page*, which has the number 2:

    $ printf '\\002\\011\\000\\001A\\000\\000\\001\\004\\000\\002\\254' > bad.obj
    $ tail -c +13 examples/objects/main.obj >> bad.obj
    $ ./plm locate bad.obj
    O9 bad.obj 0

Cure: byte alignment.

These say that a file is not an object of the profile in `docs/formats.md`,
whose table gives the exact rules. \"Where\" is the file. The most common causes:
the file is a source, a HEX text or a library, and not an object; it was sent as
text, which changes the bytes 0AH and 0DH; or it was cut off. Or a tool of the
time made it, with records that are refused, such as local symbols and line
numbers. Cure: the right file; send it as binary; make it again with
`plm compile`, or with the assembler without its symbols.
\x0cH1

A line that is not a line of HEX, or one after the end line: small letters,
blanks at the end, types other than 00 and 01, an end line in another form than
`:00000001FF`. An example is the first line as `:09010000cd0401763e08d304c9c8`.
Cure: capital letters; the kinds of lines that `docs/formats.md` has.

No command reads HEX today; these are faults of the library `hex80`. The text
`:09010000CD0401763E08D304C9C8` and a second line `:00000001FF` has no fault;
each example is that text with a change, and a row of the tests:

    $ grep ': H' crates/tables/stdout
    lower case: H1
    a line after the end line: H1
    another sum: H2
    no end line: H3
    a line twice: H4
\x0cH2

The bytes of a line don't add up to 0: a digit was changed. An example is the
first line with C9 for its last byte, C8. Cure: the right digit, or the text
made again.

No command reads HEX today; these are faults of the library `hex80`. The text
`:09010000CD0401763E08D304C9C8` and a second line `:00000001FF` has no fault;
each example is that text with a change, and a row of the tests:

    $ grep ': H' crates/tables/stdout
    lower case: H1
    a line after the end line: H1
    another sum: H2
    no end line: H3
    a line twice: H4
\x0cH3

There is no end line: the text was cut off. An example is the first line alone.
Cure: `:00000001FF` at the end, if nothing else is missing.

No command reads HEX today; these are faults of the library `hex80`. The text
`:09010000CD0401763E08D304C9C8` and a second line `:00000001FF` has no fault;
each example is that text with a change, and a row of the tests:

    $ grep ': H' crates/tables/stdout
    lower case: H1
    a line after the end line: H1
    another sum: H2
    no end line: H3
    a line twice: H4
\x0cH4

Two lines with a byte for the same address. An example is the first line twice.
Cure: one of them.

No command reads HEX today; these are faults of the library `hex80`. The text
`:09010000CD0401763E08D304C9C8` and a second line `:00000001FF` has no fault;
each example is that text with a change, and a row of the tests:

    $ grep ': H' crates/tables/stdout
    lower case: H1
    a line after the end line: H1
    another sum: H2
    no end line: H3
    a line twice: H4
\x0cA1

A label that has no place. `finish` was called, and a label that was made,
jumped to or not, was not bound: usually a path through the program that ends
before its `bind`. With 65,532 or 65,533 instructions, and without the `bind`:

    $ grep 'not bound' crates/tables/stdout
    65535 bytes, not bound: A1
    65536 bytes, not bound: A1

Cure: `bind` each label before `finish`.

No command prints these: they are faults of the library `asm8080`, with which a
program makes code of its own, and have neither \"where\" nor \"line\". The compiler
also makes its code with that library. There each label has its place, and code
that is too long is G1. The examples are from the test program `tables`, with
its lines in `crates/tables/stdout`. It adds some one-byte instructions, and a
three-byte jump to the end:

    let mut code = Code::new(alloc);
    for _ in 0..count {
        code.emit(Instr::Nop)?;
    }
    let end = code.label()?;
    code.jump(WordForm::Jump, end)?;
    code.bind(end)?;
    code.finish()
\x0cA2

Code of more than 65535 bytes: usually a loop that adds without end. If a label
has no place too, the fault is A1. With the `bind`, and 65,533 instructions:

    $ grep '^65536 bytes: ' crates/tables/stdout
    65536 bytes: A2

Cure: less code. Two pieces that are linked don't help: together they are L3.

No command prints these: they are faults of the library `asm8080`, with which a
program makes code of its own, and have neither \"where\" nor \"line\". The compiler
also makes its code with that library. There each label has its place, and code
that is too long is G1. The examples are from the test program `tables`, with
its lines in `crates/tables/stdout`. It adds some one-byte instructions, and a
three-byte jump to the end:

    let mut code = Code::new(alloc);
    for _ in 0..count {
        code.emit(Instr::Nop)?;
    }
    let end = code.label()?;
    code.jump(WordForm::Jump, end)?;
    code.bind(end)?;
    code.finish()
\x0cMEMORY

There is not enough memory, printed `MEMORY - 0`. Cure: a smaller source, or
fewer sources in one call.
";
