//! The commands of `plm` and their arguments, as `plm --help` lists them. What several commands take stands once.

use crate::help::{self, INTERPRET_LIMIT, RUN_LIMIT, Teaching};
use crate::names::CommandName;

/// How an argument is given.
#[derive(Clone, Copy)]
pub(crate) enum Kind {
    /// An option, which may be left out.
    Plain,
    /// An option for which this text stands where it is left out.
    Or(&'static str),
    /// An option that may be given several times.
    Again,
    /// An option that has to be there.
    Needed,
    /// A flag.
    Flag,
    /// A file, or another text, that has to be there.
    File,
    /// Files: at least one.
    Files,
}

/// An argument of a command.
pub(crate) struct Argument {
    /// How it is given.
    pub(crate) kind: Kind,
    /// Its name: an option and a flag are given as `--name`.
    pub(crate) name: &'static str,
    /// What help calls its value. A flag has none.
    pub(crate) value: &'static str,
    /// Its line in help.
    pub(crate) help: &'static str,
}

/// A command.
pub(crate) struct Described {
    /// Which one it is.
    pub(crate) name: CommandName,
    /// What help says of it.
    pub(crate) teaching: Teaching,
    /// Its arguments, in the order of help.
    pub(crate) groups: &'static [&'static [Argument]],
}

// Where the parts of a program are to lie.
const PLAN: &[Argument] = &[
    Argument {
        kind: Kind::Or("256"),
        name: "code",
        value: "ADDRESS",
        help: "Where the code begins, to 65535",
    },
    Argument {
        kind: Kind::Or("16384"),
        name: "data",
        value: "ADDRESS",
        help: "Where the data begins, to 65535",
    },
    Argument {
        kind: Kind::Or("61440"),
        name: "stack",
        value: "ADDRESS",
        help: "Where the stack begins, to 65535",
    },
    Argument {
        kind: Kind::Or("1024"),
        name: "stack-size",
        value: "BYTES",
        help: "How many bytes the stack has, to 65535",
    },
];

// How long a run may be.
const LIMIT_OF_RUN: &[Argument] = &[Argument {
    kind: Kind::Or("10000000"),
    name: "limit",
    value: "N",
    help: RUN_LIMIT,
}];

// How long the interpreter may take.
const LIMIT_OF_INTERPRETER: &[Argument] = &[Argument {
    kind: Kind::Or("10000000"),
    name: "limit",
    value: "N",
    help: INTERPRET_LIMIT,
}];

// What the ports give and take, and what is watched while a program runs.
const PORTS: &[Argument] = &[
    Argument {
        kind: Kind::Plain,
        name: "input",
        value: "GROUPS",
        help: "What the ports give, as 01:0904/02:FF",
    },
    Argument {
        kind: Kind::Again,
        name: "input-file",
        value: "PORT:FILE",
        help: "A file whose bytes a port gives, as 00:text.txt, or - for standard input",
    },
    Argument {
        kind: Kind::Again,
        name: "output-file",
        value: "PORT:FILE",
        help: "A file to which the bytes of a port go, as 01:out.bin, or - for standard output",
    },
    Argument {
        kind: Kind::Flag,
        name: "until-dry",
        value: "",
        help: "End before the first read of a port past its input",
    },
    Argument {
        kind: Kind::Flag,
        name: "count",
        value: "",
        help: "Print how many steps the run took, before its end",
    },
    Argument {
        kind: Kind::Flag,
        name: "where",
        value: "",
        help: "Print where the run stood at its end, after it",
    },
];

// Whether it is printed where each object lies.
const MAP: &[Argument] = &[Argument {
    kind: Kind::Flag,
    name: "map",
    value: "",
    help: "Print where each object lies, before all else",
}];

// The memory at the start.
const MEMORY: &[Argument] = &[
    Argument {
        kind: Kind::Or("00"),
        name: "fill",
        value: "BYTE",
        help: "What each byte of memory is at the start, as FF",
    },
    Argument {
        kind: Kind::Plain,
        name: "memory",
        value: "GROUPS",
        help: "What bytes of memory are at the start, as 0080:0161/005C:FF",
    },
];

// The sources of a program.
const SOURCES: &[Argument] = &[Argument {
    kind: Kind::Files,
    name: "FILES",
    value: "SOURCE",
    help: "The files with the sources",
}];

// The objects of a merge.
const OBJECTS: &[Argument] = &[Argument {
    kind: Kind::Files,
    name: "FILES",
    value: "OBJECT",
    help: "The object files, in their order",
}];

// What is compiled, and to where.
const COMPILED: &[Argument] = &[
    Argument {
        kind: Kind::File,
        name: "SOURCE",
        value: "SOURCE",
        help: "The file with the source",
    },
    Argument {
        kind: Kind::File,
        name: "OBJECT",
        value: "OBJECT",
        help: "The file to write",
    },
];

// Where a merge goes.
const OUT: &[Argument] = &[Argument {
    kind: Kind::Needed,
    name: "out",
    value: "FILE",
    help: "The file to write",
}];

// What is located, or whose need is told.
const LOCATED: &[Argument] = &[
    Argument {
        kind: Kind::Flag,
        name: "need",
        value: "",
        help: "Print how much stack the program of the sources needs",
    },
    Argument {
        kind: Kind::Files,
        name: "FILES",
        value: "FILE",
        help: "The one object file, or with --need the files with the sources",
    },
];

// What is printed as Intel HEX, and whether a jump lies at the start.
const PRINTED: &[Argument] = &[
    Argument {
        kind: Kind::Plain,
        name: "jump",
        value: "ADDRESS",
        help: "Where a jump to the start lies too, to 65533",
    },
    Argument {
        kind: Kind::Files,
        name: "FILES",
        value: "FILE",
        help: "The one object file",
    },
];

// What is listed.
const LISTED: &[Argument] = &[Argument {
    kind: Kind::Files,
    name: "FILES",
    value: "FILE",
    help: "The files with the sources, or one object file",
}];

// What is explained.
const EXPLAINED: &[Argument] = &[Argument {
    kind: Kind::File,
    name: "NUMBER",
    value: "NUMBER",
    help: "The number of a fault, such as C7, or a word with which a run ends, as OUTSIDE",
}];

// What is converted, and how.
const CONVERTED: &[Argument] = &[
    Argument {
        kind: Kind::Flag,
        name: "listing",
        value: "",
        help: "Take the source out of a listing that a compiler printed",
    },
    Argument {
        kind: Kind::Flag,
        name: "cards",
        value: "",
        help: "Take away what comes after column 72",
    },
    Argument {
        kind: Kind::Again,
        name: "folder",
        value: "DIR",
        help: "A folder in which files of INCLUDE are looked for",
    },
    Argument {
        kind: Kind::Again,
        name: "set",
        value: "NAME",
        help: "A switch of IF that is set",
    },
    Argument {
        kind: Kind::Plain,
        name: "lines",
        value: "TABLE",
        help: "A file to write, which tells where each line comes from",
    },
    Argument {
        kind: Kind::File,
        name: "FILE",
        value: "FILE",
        help: "The source to convert",
    },
];

/// The command that compiles a source.
pub(crate) const COMPILE: &Described = &Described {
    name: CommandName::Compile,
    teaching: help::COMPILE,
    groups: &[COMPILED],
};

/// The command that builds sources and runs them.
pub(crate) const RUN: &Described = &Described {
    name: CommandName::Run,
    teaching: help::RUN,
    groups: &[PLAN, LIMIT_OF_RUN, PORTS, MAP, MEMORY, SOURCES],
};

/// The command that builds sources and interprets them.
pub(crate) const INTERPRET: &Described = &Described {
    name: CommandName::Interpret,
    teaching: help::INTERPRET,
    groups: &[PLAN, LIMIT_OF_INTERPRETER, PORTS, MAP, MEMORY, SOURCES],
};

/// The command that links object files.
pub(crate) const LINK: &Described = &Described {
    name: CommandName::Link,
    teaching: help::LINK,
    groups: &[OUT, OBJECTS],
};

/// The command that prints where an object lies or, with its flag, how much of the stack sources need.
pub(crate) const LOCATE: &Described = &Described {
    name: CommandName::Locate,
    teaching: help::LOCATE,
    groups: &[PLAN, LOCATED],
};

/// The command that prints the bytes of an object file that is placed.
pub(crate) const HEX: &Described = &Described {
    name: CommandName::Hex,
    teaching: help::HEX,
    groups: &[PLAN, PRINTED],
};

/// The command that lists sources, or an object file that is placed.
pub(crate) const LIST: &Described = &Described {
    name: CommandName::List,
    teaching: help::LIST,
    groups: &[PLAN, LISTED],
};

/// The command that prints the symbols of sources.
pub(crate) const SYMBOLS: &Described = &Described {
    name: CommandName::Symbols,
    teaching: help::SYMBOLS,
    groups: &[PLAN, SOURCES],
};

/// The command that runs the merge of object files.
pub(crate) const EXECUTE: &Described = &Described {
    name: CommandName::Execute,
    teaching: help::EXECUTE,
    groups: &[PLAN, LIMIT_OF_RUN, PORTS, MEMORY, OBJECTS],
};

/// The command that explains a number.
pub(crate) const EXPLAIN: &Described = &Described {
    name: CommandName::Explain,
    teaching: help::EXPLAIN,
    groups: &[EXPLAINED],
};

/// The command that converts an old source.
pub(crate) const CONVERT: &Described = &Described {
    name: CommandName::Convert,
    teaching: help::CONVERT,
    groups: &[CONVERTED],
};
