//! The table of rules. At each word the first rule that fits is taken. `docs/convert.md` has it in words.

ghost use Rattle.std.specs.Prelude.{◌≡◌, map};
ghost use Rattle.convert.specs.Table.{rule_view, table_of_rules};

use crate::class::Class;
use crate::rule::{Action, Part, Put, Rule, Value};
use words::{Mark, ReservedWord};

const DECLARE: Part = Part::Is(Class::Reserved(ReservedWord::Declare));

const LABEL: Part = Part::Is(Class::Reserved(ReservedWord::Label));

const INITIAL: Part = Part::Is(Class::Reserved(ReservedWord::Initial));

const DATA: Part = Part::Is(Class::Reserved(ReservedWord::Data));

const AT: Part = Part::Is(Class::Reserved(ReservedWord::At));

const EXTERNAL: Part = Part::Is(Class::Reserved(ReservedWord::External));

const PUBLIC: Part = Part::Is(Class::Reserved(ReservedWord::Public));

const REENTRANT: Part = Part::Is(Class::Reserved(ReservedWord::Reentrant));

const STRUCTURE: Part = Part::Is(Class::Reserved(ReservedWord::Structure));

const BYTE: Part = Part::Is(Class::Reserved(ReservedWord::Byte));

const ADDRESS: Part = Part::Is(Class::Reserved(ReservedWord::Address));

const COMMA: Part = Part::Is(Class::Mark(Mark::Comma));

const COLON: Part = Part::Is(Class::Mark(Mark::Colon));

const SEMICOLON: Part = Part::Is(Class::Mark(Mark::Semicolon));

const PERIOD: Part = Part::Is(Class::Mark(Mark::Period));

const NAME: Part = Part::Is(Class::Name);

const SPACE: Put = Put::Text(b" ");

/// The rules.
pub static RULES: [Rule; 79] = [
    // words
    Rule {
        parts: &[
            Part::Is(Class::Reserved(ReservedWord::Go)),
            Part::Is(Class::Reserved(ReservedWord::To)),
            Part::Is(Class::Number),
        ],
        action: Action::Tell(
            "GOTO an address: in MON1 and MON2 delete it and write EXTERNAL in the heading; for 0 write CALL MON1(0, 0); else JUMP of examples/mixed",
        ),
    },
    Rule {
        parts: &[
            Part::Is(Class::Reserved(ReservedWord::Go)),
            Part::Is(Class::Reserved(ReservedWord::To)),
            Part::Is(Class::Constant),
        ],
        action: Action::Tell(
            "GOTO an address: in MON1 and MON2 delete it and write EXTERNAL in the heading; for 0 write CALL MON1(0, 0); else JUMP of examples/mixed",
        ),
    },
    Rule {
        parts: &[
            Part::Is(Class::Reserved(ReservedWord::Goto)),
            Part::Is(Class::Number),
        ],
        action: Action::Tell(
            "GOTO an address: in MON1 and MON2 delete it and write EXTERNAL in the heading; for 0 write CALL MON1(0, 0); else JUMP of examples/mixed",
        ),
    },
    Rule {
        parts: &[
            Part::Is(Class::Reserved(ReservedWord::Goto)),
            Part::Is(Class::Constant),
        ],
        action: Action::Tell(
            "GOTO an address: in MON1 and MON2 delete it and write EXTERNAL in the heading; for 0 write CALL MON1(0, 0); else JUMP of examples/mixed",
        ),
    },
    Rule {
        parts: &[
            Part::Is(Class::Reserved(ReservedWord::Go)),
            Part::Is(Class::Reserved(ReservedWord::To)),
        ],
        action: Action::Write(&[Put::Text(b"GOTO")]),
    },
    Rule {
        parts: &[Part::Is(Class::FirstNumber), COLON],
        action: Action::DeleteNumber(
            256,
            "a load address other than 100H, which is deleted: where the program is built or run, give --code",
        ),
    },
    Rule {
        parts: &[Part::EndOfText],
        action: Action::Write(&[]),
    },
    Rule {
        parts: &[Part::Is(Class::Reserved(ReservedWord::Eof))],
        action: Action::Tell(
            "EOF: delete it, and what follows if that is no part of the program, or write another name",
        ),
    },
    Rule {
        parts: &[COLON, Part::Is(Class::EndOfOther), NAME],
        action: Action::Tell(
            "END NAME: no label NAME at the DO that it ends: an END may be missing before it, or delete NAME",
        ),
    },
    Rule {
        parts: &[COLON, Part::Is(Class::EndOfDo), NAME],
        action: Action::Write(&[Put::Copy(0), Put::Text(b" ;"), Put::After(0, 1)]),
    },
    Rule {
        parts: &[COLON, Part::Is(Class::EndOfDo)],
        action: Action::Write(&[Put::Copy(0), Put::Text(b" ;"), Put::After(0, 1)]),
    },
    Rule {
        parts: &[COLON, Part::Is(Class::Reserved(ReservedWord::End))],
        action: Action::Write(&[Put::Copy(0), Put::Text(b" ;"), Put::After(0, 1)]),
    },
    Rule {
        parts: &[Part::Is(Class::EndOfOther), NAME],
        action: Action::Tell(
            "END NAME: no label NAME at the DO that it ends: an END may be missing before it, or delete NAME",
        ),
    },
    Rule {
        parts: &[Part::Is(Class::EndOfDo), NAME],
        action: Action::Write(&[Put::Copy(0)]),
    },
    Rule {
        parts: &[PERIOD, Part::Is(Class::String)],
        action: Action::Write(&[Put::Text(b".("), Put::Copy(1), Put::Text(b")")]),
    },
    Rule {
        parts: &[PERIOD, Part::Is(Class::Number)],
        action: Action::Write(&[Put::Text(b".("), Put::Copy(1), Put::Text(b")")]),
    },
    Rule {
        parts: &[PERIOD, Part::Is(Class::Constant)],
        action: Action::Tell("a dot before a name for a number: write .(N), or another name"),
    },
    Rule {
        parts: &[Part::Clash],
        action: Action::Tell(
            "a variable that one side of = assigns and the other uses: write the assignment as a statement, before or after",
        ),
    },
    Rule {
        parts: &[NAME, Part::Assigning],
        action: Action::Write(&[Put::Copy(0), Put::Wrapped(1)]),
    },
    // labels
    Rule {
        parts: &[DECLARE, Part::Names, LABEL, Part::Scope],
        action: Action::Tell("a label of several modules: write a procedure, PUBLIC and EXTERNAL"),
    },
    Rule {
        parts: &[COMMA, Part::Names, LABEL, Part::Scope],
        action: Action::Tell("a label of several modules: write a procedure, PUBLIC and EXTERNAL"),
    },
    Rule {
        parts: &[DECLARE, Part::Names, LABEL, SEMICOLON],
        action: Action::Write(&[]),
    },
    Rule {
        parts: &[
            DECLARE,
            Part::Names,
            LABEL,
            COMMA,
            Part::Names,
            LABEL,
            SEMICOLON,
        ],
        action: Action::Write(&[]),
    },
    Rule {
        parts: &[COMMA, Part::Names, LABEL],
        action: Action::Write(&[]),
    },
    Rule {
        parts: &[NAME, LABEL, COMMA],
        action: Action::Write(&[]),
    },
    Rule {
        parts: &[Part::List, LABEL, COMMA],
        action: Action::Write(&[]),
    },
    // orders of attributes
    Rule {
        parts: &[Part::Scope, REENTRANT, Part::Type],
        action: Action::Write(&[Put::Copy(2), SPACE, Put::Copy(0), SPACE, Put::Copy(1)]),
    },
    Rule {
        parts: &[REENTRANT, Part::Type, Part::Scope],
        action: Action::Write(&[Put::Copy(1), SPACE, Put::Copy(2), SPACE, Put::Copy(0)]),
    },
    Rule {
        parts: &[REENTRANT, Part::Scope, Part::Type],
        action: Action::Write(&[Put::Copy(2), SPACE, Put::Copy(1), SPACE, Put::Copy(0)]),
    },
    Rule {
        parts: &[REENTRANT, Part::Type],
        action: Action::Write(&[Put::Copy(1), SPACE, Put::Copy(0)]),
    },
    Rule {
        parts: &[REENTRANT, Part::Scope],
        action: Action::Write(&[Put::Copy(1), SPACE, Put::Copy(0)]),
    },
    Rule {
        parts: &[Part::Scope, Part::Type],
        action: Action::Write(&[Put::Copy(1), SPACE, Put::Copy(0)]),
    },
    // constants without a type, and those of other modules
    Rule {
        parts: &[EXTERNAL, DATA, Part::Group],
        action: Action::Write(&[Put::Copy(0)]),
    },
    Rule {
        parts: &[EXTERNAL, DATA],
        action: Action::Write(&[Put::Copy(0)]),
    },
    Rule {
        parts: &[EXTERNAL, INITIAL],
        action: Action::Tell("EXTERNAL with INITIAL: write the values where the name is PUBLIC"),
    },
    Rule {
        parts: &[INITIAL, Part::Group, EXTERNAL],
        action: Action::Tell("EXTERNAL with INITIAL: write the values where the name is PUBLIC"),
    },
    Rule {
        parts: &[NAME, DATA, Part::Group, PUBLIC],
        action: Action::Write(&[
            Put::Copy(0),
            Put::Text(b"(*) BYTE "),
            Put::Copy(3),
            SPACE,
            Put::Copy(1),
            SPACE,
            Put::Copy(2),
        ]),
    },
    Rule {
        parts: &[NAME, DATA],
        action: Action::Write(&[Put::Copy(0), Put::Text(b"(*) BYTE "), Put::Copy(1)]),
    },
    // based variables in parentheses
    Rule {
        parts: &[Part::BasedOne],
        action: Action::Write(&[Put::Inner(0)]),
    },
    Rule {
        parts: &[Part::BasedList, Part::Type, Part::Attribute],
        action: Action::Tell("a list with BASED: write each name with its own attributes"),
    },
    Rule {
        parts: &[Part::BasedList, Part::Type],
        action: Action::Write(&[Put::Each {
            first: 1,
            last: 1,
            value: Value::Nothing,
        }]),
    },
    Rule {
        parts: &[Part::BasedList, STRUCTURE, Part::Group, Part::Attribute],
        action: Action::Tell("a list with BASED: write each name with its own attributes"),
    },
    Rule {
        parts: &[Part::BasedList, STRUCTURE, Part::Group],
        action: Action::Write(&[Put::Each {
            first: 1,
            last: 2,
            value: Value::Nothing,
        }]),
    },
    Rule {
        parts: &[Part::BasedList, Part::Group, Part::Type, Part::Attribute],
        action: Action::Tell("a list with BASED: write each name with its own attributes"),
    },
    Rule {
        parts: &[Part::BasedList, Part::Group, Part::Type],
        action: Action::Write(&[Put::Each {
            first: 1,
            last: 2,
            value: Value::Nothing,
        }]),
    },
    Rule {
        parts: &[
            Part::BasedList,
            Part::Group,
            STRUCTURE,
            Part::Group,
            Part::Attribute,
        ],
        action: Action::Tell("a list with BASED: write each name with its own attributes"),
    },
    Rule {
        parts: &[Part::BasedList, Part::Group, STRUCTURE, Part::Group],
        action: Action::Write(&[Put::Each {
            first: 1,
            last: 3,
            value: Value::Nothing,
        }]),
    },
    // values of several names
    Rule {
        parts: &[
            Part::List,
            Part::Type,
            Part::Values,
            Part::Group,
            Part::Scope,
        ],
        action: Action::Tell(
            "values for several names: write each name with its own, after PUBLIC",
        ),
    },
    Rule {
        parts: &[Part::List, Part::Type, PUBLIC, Part::Values, Part::ItemsFor],
        action: Action::Write(&[Put::Each {
            first: 1,
            last: 3,
            value: Value::Item(4),
        }]),
    },
    Rule {
        parts: &[Part::List, Part::Type, Part::Values, Part::ItemsFor],
        action: Action::Write(&[Put::Each {
            first: 1,
            last: 2,
            value: Value::Item(3),
        }]),
    },
    Rule {
        parts: &[Part::List, Part::Type, AT, Part::Group, Part::Scope],
        action: Action::Tell("AT for several names: write PUBLIC or EXTERNAL before AT"),
    },
    Rule {
        parts: &[Part::List, Part::Type, AT, Part::Group, Part::Values],
        action: Action::Tell(
            "AT with a value: write an assignment at the beginning of the program",
        ),
    },
    Rule {
        parts: &[
            Part::List,
            Part::Type,
            Part::Scope,
            AT,
            Part::Group,
            Part::Values,
        ],
        action: Action::Tell(
            "AT with a value: write an assignment at the beginning of the program",
        ),
    },
    Rule {
        parts: &[Part::List, BYTE, AT, Part::Group],
        action: Action::Write(&[Put::Each {
            first: 1,
            last: 2,
            value: Value::Address(3, 1),
        }]),
    },
    Rule {
        parts: &[Part::List, BYTE, Part::Scope, AT, Part::Group],
        action: Action::Write(&[Put::Each {
            first: 1,
            last: 3,
            value: Value::Address(4, 1),
        }]),
    },
    Rule {
        parts: &[Part::List, ADDRESS, AT, Part::Group],
        action: Action::Write(&[Put::Each {
            first: 1,
            last: 2,
            value: Value::Address(3, 2),
        }]),
    },
    Rule {
        parts: &[Part::List, ADDRESS, Part::Scope, AT, Part::Group],
        action: Action::Write(&[Put::Each {
            first: 1,
            last: 3,
            value: Value::Address(4, 2),
        }]),
    },
    Rule {
        parts: &[Part::List, Part::Type, Part::Values],
        action: Action::Tell("values for several names: write each name with its own"),
    },
    Rule {
        parts: &[Part::List, Part::Type, PUBLIC, Part::Values],
        action: Action::Tell("values for several names: write each name with its own"),
    },
    Rule {
        parts: &[Part::List, Part::Group, Part::Type, Part::Values],
        action: Action::Tell("values for several arrays: write each array with its own"),
    },
    Rule {
        parts: &[Part::List, Part::Group, Part::Type, PUBLIC, Part::Values],
        action: Action::Tell("values for several arrays: write each array with its own"),
    },
    Rule {
        parts: &[Part::List, Part::Group, Part::Type, AT],
        action: Action::Tell("AT for several arrays: write each array with its own"),
    },
    Rule {
        parts: &[Part::List, Part::Group, Part::Type, Part::Scope, AT],
        action: Action::Tell("AT for several arrays: write each array with its own"),
    },
    Rule {
        parts: &[Part::List, STRUCTURE, Part::Group, Part::Values],
        action: Action::Tell("values for several structures: write each structure with its own"),
    },
    Rule {
        parts: &[Part::List, STRUCTURE, Part::Group, PUBLIC, Part::Values],
        action: Action::Tell("values for several structures: write each structure with its own"),
    },
    Rule {
        parts: &[
            Part::List,
            Part::Group,
            STRUCTURE,
            Part::Group,
            Part::Values,
        ],
        action: Action::Tell("values for several structures: write each structure with its own"),
    },
    Rule {
        parts: &[
            Part::List,
            Part::Group,
            STRUCTURE,
            Part::Group,
            PUBLIC,
            Part::Values,
        ],
        action: Action::Tell("values for several structures: write each structure with its own"),
    },
    Rule {
        parts: &[Part::List, STRUCTURE, Part::Group, AT],
        action: Action::Tell("AT for several structures: write each structure with its own"),
    },
    Rule {
        parts: &[Part::List, STRUCTURE, Part::Group, Part::Scope, AT],
        action: Action::Tell("AT for several structures: write each structure with its own"),
    },
    Rule {
        parts: &[Part::List, Part::Group, STRUCTURE, Part::Group, AT],
        action: Action::Tell("AT for several structures: write each structure with its own"),
    },
    Rule {
        parts: &[
            Part::List,
            Part::Group,
            STRUCTURE,
            Part::Group,
            Part::Scope,
            AT,
        ],
        action: Action::Tell("AT for several structures: write each structure with its own"),
    },
    // places and values before PUBLIC
    Rule {
        parts: &[AT, Part::Group, Part::Values],
        action: Action::Tell(
            "AT with a value: write an assignment at the beginning of the program",
        ),
    },
    Rule {
        parts: &[Part::Values, Part::Group, Part::Scope],
        action: Action::Write(&[Put::Copy(2), SPACE, Put::Copy(0), SPACE, Put::Copy(1)]),
    },
    Rule {
        parts: &[AT, Part::Group, Part::Scope],
        action: Action::Write(&[Put::Copy(2), SPACE, Put::Copy(0), SPACE, Put::Copy(1)]),
    },
    // what has no cure here
    Rule {
        parts: &[Part::Is(Class::Reserved(ReservedWord::Interrupt))],
        action: Action::Tell(
            "INTERRUPT: poll a status port in a loop, or link an object that calls the procedure",
        ),
    },
    Rule {
        parts: &[Part::Is(Class::Reserved(ReservedWord::Enable)), SEMICOLON],
        action: Action::Tell("ENABLE: delete it, or CALL an object that has EI"),
    },
    Rule {
        parts: &[Part::Is(Class::Reserved(ReservedWord::Disable)), SEMICOLON],
        action: Action::Tell("DISABLE: delete it, or CALL an object that has DI"),
    },
    Rule {
        parts: &[Part::Is(Class::Reserved(ReservedWord::Plus))],
        action: Action::Tell(
            "A PLUS B: write ADC(A, B) of examples/arithmetic, for the + of the byte before too, after CARRY = 0; in DEC( ) DEC$ADC(A, B)",
        ),
    },
    Rule {
        parts: &[Part::Is(Class::Reserved(ReservedWord::Minus))],
        action: Action::Tell(
            "A MINUS B: write SBB(A, B) of examples/arithmetic, for the - of the byte before too, after CARRY = 0; in DEC( ) DEC$SBB(A, B)",
        ),
    },
];

/// The table of rules.
pub fn all_rules() -> &'static [Rule]
    ensures { map rule_view result.now ≡ table_of_rules }
{
    &RULES
}
