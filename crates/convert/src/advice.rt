//! What is told of lines.

ghost use Rattle.std.specs.Prelude.{◌≡◌};
ghost use Rattle.convert.specs.Advice.{advice_view, usual_advice};

/// What is told of lines of a listing that are not understood, of comments, and of controls that are not carried out: what it is,
/// and what to write.
#[derive(Clone, Copy)]
pub struct Advice {
    /// A line of a listing is the rest of the line before it.
    pub goes_on: &'static str,
    /// A line is not a line of a listing.
    pub no_line: &'static str,
    /// INCLUDE has no name of a file.
    pub no_name: &'static str,
    /// There is no file of its name.
    pub no_file: &'static str,
    /// The file would be put in too deep.
    pub too_deep: &'static str,
    /// Its file is not looked for.
    pub not_looked_for: &'static str,
    /// A condition is not understood.
    pub no_condition: &'static str,
    /// A part of an IF has no IF.
    pub no_if: &'static str,
    /// An IF has no ENDIF.
    pub no_end: &'static str,
    /// What is set or reset is no name.
    pub no_names: &'static str,
    /// What the command line sets is no name.
    pub no_switch: &'static str,
    /// Lines end with a return alone.
    pub no_feed: &'static str,
    /// A comment begins in a comment.
    pub inner_comment: &'static str,
}

/// What is told by `plm convert`.
pub static USUAL_ADVICE: Advice = Advice {
    goes_on: "a line that goes on: write it at the end of the line before",
    no_line: "no line of a listing: delete it, or leave what is source",
    no_name: "INCLUDE: no name of a file: write the text of the file here",
    no_file: "INCLUDE: no such file: give its folder by --folder, or write the text of the file here",
    too_deep: "INCLUDE: files more than 8 deep: write the text of the file here",
    not_looked_for: "INCLUDE: no file is looked for, after 255 names or in a listing: write its text here, if it is not here",
    no_condition: "IF: a condition of other than names, NOT, AND and OR: delete the lines, up to its ENDIF, that are not wanted",
    no_if: "ELSEIF, ELSE or ENDIF: no IF for it in its file: delete it, or write the IF",
    no_end: "IF: no ENDIF for it in its file: write one",
    no_names: "SET or RESET: other than names: write names with commas between them",
    no_switch: "--set: no name of a switch: give a letter, and then letters, digits, $ and _",
    no_feed: "CR without any LF, so that all is one line: write LF in place of each CR",
    inner_comment: "/* in a comment: write */ where that comment should end, or delete the /*",
};

/// The same, for a contract.
pub fn all_advice() -> &'static Advice
    ensures { advice_view result.now ≡ usual_advice }
{
    &USUAL_ADVICE
}
