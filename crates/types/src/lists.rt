//! Labels, and the lists of statements that hold them.

ghost use Rattle.std.specs.Prelude.{◌≡◌, Ok, OnOk, IfOk, length};
ghost use Rattle.failure.specs.Failure.{IfFault};
ghost use Rattle.typing.specs.internal.StatementChecks.{declare_labels, without_label};
ghost use Rattle.typing.specs.internal.Results.{Answers, Leaves};
ghost use Rattle.types.specs.internal.Walking.{label_declared};
ghost use Rattle.types.specs.internal.Lists.{listed_view, with_label, with_labels, with_statement};

use crate::checker::answer_of_scopes;
use failure::Failure;
use names::Scopes;
use trees::{Identifier, next_number};
use typed_expressions::refuse;
use typed_trees::TypedStatement;
use typing::{Cause, Fault};

// Takes in a label.
fn declare_label(scopes: &mut Scopes, label: Identifier) -> Result<(), Failure<Fault>>
    ensures { Leaves result scopes.new (label_declared label scopes.old) }
{
    answer_of_scopes(scopes.declare_label(label))
}

/// Takes in the labels before a statement.
pub(crate) fn declare_labels(
    scopes: &mut Scopes,
    labels: &[Identifier],
) -> Result<(), Failure<Fault>>
    ensures { Leaves result scopes.new (declare_labels labels.now scopes.old) }
{
    for label in labels {
        declare_label(scopes, *label)?;
    }
    Ok(())
}

/// A statement after THEN or ELSE or of a DO CASE has no label.
pub(crate) fn without_label(labels: &[Identifier]) -> Result<(), Failure<Fault>>
    ensures { Answers (λ _. tt) result (without_label labels.now) }
{
    match labels {
        [] => Ok(()),
        [label, ..] => Err(refuse(Cause::MisplacedLabel, label.place)),
    }
}

/// How many items there are, which is the number of the next.
pub(crate) fn length_of<T>(items: &[T]) -> Result<u32, Failure<Fault>>
    ensures ok { IfOk result (λ number. number ≡ length items.now) }
    ensures err { IfFault result (λ _. ⊥) }
{
    match u32::try_from(items.len()) {
        Ok(number) => Ok(number),
        Err(_) => Err(Failure::Memory),
    }
}

/// A list of statements as far as it is typed, with the number of its next label, and where its labels stand.
#[derive(Drop)]
pub(crate) struct Listed {
    pub(crate) label: u32,
    pub(crate) places: Vec<u32>,
    pub(crate) statements: Vec<TypedStatement>,
}

impl Listed {
    // One more label.
    fn push_label(&mut self) -> Result<(), Failure<Fault>>
        ensures ok { OnOk result (listed_view self.new ≡ with_label (listed_view self.old)) }
        ensures err { IfFault result (λ _. ⊥) }
    {
        let label = self.label;
        self.places.push(length_of(self.statements.as_slice())?)?;
        self.statements.push(TypedStatement::Label(label))?;
        self.label = next_number(label)?;
        Ok(())
    }

    // Labels, each as a statement of its own.
    fn push_labels(&mut self, labels: &[Identifier]) -> Result<(), Failure<Fault>>
        ensures ok { OnOk result (listed_view self.new ≡ with_labels labels.now (listed_view self.old)) }
        ensures err { IfFault result (λ _. ⊥) }
    {
        for _ in labels {
            self.push_label()?;
        }
        Ok(())
    }

    /// A statement after its labels.
    pub(crate) fn push(
        &mut self,
        labels: &[Identifier],
        statement: TypedStatement,
    ) -> Result<(), Failure<Fault>>
        ensures ok { OnOk result (listed_view self.new ≡
            with_statement labels.now statement (listed_view self.old)) }
        ensures err { IfFault result (λ _. ⊥) }
    {
        self.push_labels(labels)?;
        self.statements.push(statement)?;
        Ok(())
    }
}
