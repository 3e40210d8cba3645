//! The orders that a command line gives. Options are the texts of its words.

/// What is done with sources.
#[derive(Clone, Copy)]
pub enum Action {
    /// Build the sources and run their image.
    Run,
    /// Build the sources and interpret them.
    Interpret,
}

/// What is printed of an object file, or of sources, that are placed in memory.
#[derive(Clone, Copy)]
pub enum PlaceAction {
    /// Where the segments of an object, its start and its public names lie.
    Locate,
    /// The bytes of an object, as Intel HEX.
    Hex,
    /// The bytes of an object, with the instructions that they encode; or the lines of sources, with their code.
    Listing,
    /// Where the procedures, the variables and the lines of sources lie.
    Symbols,
}

/// What is watched while a program runs.
#[derive(Clone, Copy)]
pub struct Watch {
    /// Whether it is printed how many steps the run took.
    pub count: bool,
    /// Whether the run ends before the first read of a port past its input.
    pub until_dry: bool,
    /// Whether it is printed where the run stood at its end.
    pub place: bool,
}

/// The texts of the options that say where the parts of a program are to lie.
#[derive(Clone, Copy)]
pub struct PlanTexts<'a> {
    /// The address of the code.
    pub code: &'a str,
    /// The address of the data.
    pub data_base: &'a str,
    /// The lowest address of the stack.
    pub stack: &'a str,
    /// The number of bytes of the stack.
    pub stack_size: &'a str,
}

/// An order to build sources and run or interpret them.
#[derive(Drop)]
pub struct ProgramOrder<'a> {
    /// What is done with the sources.
    pub action: Action,
    /// The files of the sources, in their order.
    pub files: Vec<&'a str>,
    /// Where the parts of the program are to lie.
    pub plan: PlanTexts<'a>,
    /// The most instructions that are run, or the budget of the interpreter.
    pub limit: &'a str,
    /// What the ports give, where that was said.
    pub input: Option<&'a str>,
    /// The files of ports from which their bytes come.
    pub input_files: Vec<&'a str>,
    /// The files of ports to which their bytes go.
    pub output_files: Vec<&'a str>,
    /// What is watched while it runs.
    pub watch: Watch,
    /// Whether it is first printed where each object lies.
    pub map: bool,
    /// The byte that the memory has at the start where nothing else is said.
    pub fill: &'a str,
    /// Other bytes of the memory at the start, where that was said.
    pub memory: Option<&'a str>,
}

/// An order to compile a source to an object file.
#[derive(Clone, Copy)]
pub struct CompileOrder<'a> {
    /// The file of the source.
    pub source: &'a str,
    /// The file to which the object module goes.
    pub object: &'a str,
}

/// An order to link object files.
#[derive(Drop)]
pub struct LinkOrder<'a> {
    /// The file to which the merged object goes.
    pub out: &'a str,
    /// The object files, in their order.
    pub objects: Vec<&'a str>,
}

/// An order to place an object file, or sources, in memory. More files than one are refused by `PlaceOrder::file`.
#[derive(Drop)]
pub struct PlaceOrder<'a> {
    /// What is printed.
    pub action: PlaceAction,
    /// The files.
    pub files: Vec<&'a str>,
    /// Where the parts of the program are to lie.
    pub plan: PlanTexts<'a>,
    /// The address of a jump to the start, where that was said. Only `hex` takes one.
    pub jump: Option<&'a str>,
}

/// An order to tell how much of the stack the program of sources needs. Its plan has to be one, and changes nothing.
#[derive(Drop)]
pub struct NeedOrder<'a> {
    /// The files of the sources, in their order.
    pub files: Vec<&'a str>,
    /// Where the parts of a program are to lie.
    pub plan: PlanTexts<'a>,
}

/// An order to run the merge of object files.
#[derive(Drop)]
pub struct ExecuteOrder<'a> {
    /// The object files, in their order.
    pub objects: Vec<&'a str>,
    /// Where the parts of the program are to lie.
    pub plan: PlanTexts<'a>,
    /// The most instructions that are run.
    pub limit: &'a str,
    /// What the ports give, where that was said.
    pub input: Option<&'a str>,
    /// The files of ports from which their bytes come.
    pub input_files: Vec<&'a str>,
    /// The files of ports to which their bytes go.
    pub output_files: Vec<&'a str>,
    /// What is watched while it runs.
    pub watch: Watch,
    /// The byte that the memory has at the start where nothing else is said.
    pub fill: &'a str,
    /// Other bytes of the memory at the start, where that was said.
    pub memory: Option<&'a str>,
}

/// An order to explain a number.
#[derive(Clone, Copy)]
pub struct ExplainOrder<'a> {
    /// The number of the fault.
    pub number: &'a str,
}

/// An order to convert an old source.
#[derive(Drop)]
pub struct ConvertOrder<'a> {
    /// The name of its file.
    pub file: &'a str,
    /// Whether the file is a listing, which a compiler printed.
    pub listing: bool,
    /// Whether the source is on cards.
    pub cards: bool,
    /// The folders in which files that it includes are looked for, in their order.
    pub folders: Vec<&'a str>,
    /// The switches that are set.
    pub sets: Vec<&'a str>,
    /// The file to which the table of lines goes, where that was said.
    pub lines: Option<&'a str>,
}

/// What the command line asks for.
#[derive(Drop)]
pub enum Order<'a> {
    /// Compile a source to an object file.
    Compile(CompileOrder<'a>),
    /// Build sources and run or interpret them.
    Program(ProgramOrder<'a>),
    /// Link object files.
    Link(LinkOrder<'a>),
    /// Place an object file in memory.
    Place(PlaceOrder<'a>),
    /// Tell how much of the stack the program of sources needs.
    Need(NeedOrder<'a>),
    /// Run the merge of object files.
    Execute(ExecuteOrder<'a>),
    /// Explain a number.
    Explain(ExplainOrder<'a>),
    /// Convert an old source.
    Convert(ConvertOrder<'a>),
}
