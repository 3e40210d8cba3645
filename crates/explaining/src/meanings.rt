//! The sentence of each number of a fault. `tools/faults --write` makes it of docs/faults.md.

/// A line for each number: the number, a blank, and its sentence without the point at its end.
pub(crate) const MEANINGS: &str = "\
C1 A character that is not allowed there, or a string that is not closed on its line
C2 The text ends within a string or a comment
C3 A word that begins with a digit and is not a number, or a number over 65535
C4 A name of more than 31 characters
C5 LITERALLY goes too deep
C6 A name that LITERALLY defines already, or a quote in the text of a definition
C7 A word that is not allowed there
C8 Nested more than 64 levels deep
C9 The name after END is not that of what it ends
C11 A name, or a member, that is not known there
C12 A name that is declared twice in one block
C13 A use that does not fit what is named
C14 An attribute or a declaration that is not allowed there
C15 A constant that is not allowed there
C16 A write to an object with DATA
C17 The location of a procedure, or of a variable or a parameter of a REENTRANT procedure
C18 Too many bytes
C19 A label after THEN or ELSE, or in a DO CASE
C20 A GOTO to what is not a label, or to a label that is not known there
G1 The constants and the code of a module take more than 65535 bytes
J1 An EXTERNAL name that no module has as PUBLIC
J2 Two PUBLICs with one name
J3 An EXTERNAL and its PUBLIC are declared differently
J4 No module has statements, or more than one has
J5 An object with AT lies in the code or in the stack, or passes address 65535
L1 Two objects have the same public name
L2 An external name that no object has as public
L3 The code, the data or the stack of all modules takes more than 65535 bytes
L4 No object has a start, or several have one
L5 A high byte of an address that moves by no multiple of 256
P1 Code, data and stack overlap
P2 Code, data or stack passes address 65535
P3 An external name is left
P4 The object has no start
P5 A high byte of an address whose base is not a multiple of 256
P6 A segment that has to begin at a page would not
O1 The file ends within a record
O2 The bytes of a record don't add up to 0
O3 A record of length 0 or of more than 1028 bytes
O4 A type of record that the profile does not have
O5 A record where it is not allowed, or bytes after the end of the file
O6 A body that its record may not have
O7 A content that passes its segment, overlaps another, or doesn't ascend
O8 A fix outside its content, or two that share a byte
O9 An alignment other than byte, or page for code and data
H1 A line that is not a line of HEX
H2 The bytes of a line don't add up to 0
H3 There is no end line
H4 Two lines with a byte for the same address
A1 A label that has no place
A2 Code of more than 65535 bytes
U1 Over 64 sources
U2 A source of over 1,048,576 bytes
U3 A file that can't be read or written
U4 An option with a text that is not one of its values
MEMORY There is not enough memory
";
