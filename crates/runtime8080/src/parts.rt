//! Parts of which routines are made.

ghost use Rattle.std.specs.Prelude.{◌≡◌, ◌+◌, ◌∷◌, ◌++◌, [], map, IfOk, OnOk};
ghost use Rattle.asm8080.specs.Items.{BindsNew, IsAssembly, KnowsLabels};
ghost use Rattle.runtime8080.specs.internal.Emission.{Fits, item_of};

use asm8080::{Code, Label, WordForm};
use isa8080::Instr;
use std::alloc::AllocError;

/// A part of a routine.
#[derive(Clone, Copy)]
pub(crate) enum Part {
    /// An instruction.
    Does(Instr),
    /// A jump to a label.
    Goes(WordForm, Label),
    /// The place of a label.
    Here(Label),
}

fn emit_part(code: &mut Code, part: Part) -> Result<(), AllocError>
    requires known { KnowsLabels code.old.labels (item_of part) }
    requires new { BindsNew (item_of part) code.old.items }
    ensures ok { OnOk result (code.new
        ≡ record code.old { items = code.old.items ++ item_of part ∷ [] }) }
{
    match part {
        Part::Does(instruction) => code.emit(instruction),
        Part::Goes(form, label) => code.jump(form, label),
        Part::Here(label) => code.bind(label),
    }
}

/// Adds the parts of a routine.
#[tactic(auto, unfolding(crate::specs::internal::Emission::Fits))]
pub(crate) fn emit_parts(code: &mut Code, parts: &[Part]) -> Result<(), AllocError>
    requires fits { Fits code.old (map item_of parts.now) }
    ensures ok { OnOk result (code.new
        ≡ record code.old { items = code.old.items ++ map item_of parts.now }) }
{
    let mut rest = parts;
    while let [part, more @ ..] = rest {
        emit_part(code, *part)?;
        rest = more;
    }
    Ok(())
}

/// The next two labels.
#[tactic(auto, using(crate::proofs::Added::two_more))]
pub(crate) fn two_labels(code: &mut Code) -> Result<(Label, Label), AllocError>
    ensures first { IfOk result (λ labels. labels.0 ≡ code.old.labels) }
    ensures second { IfOk result (λ labels. labels.1 ≡ code.old.labels + 1) }
    ensures more { OnOk result (code.new ≡ record code.old { labels = code.old.labels + 2 }) }
    ensures valid { IsAssembly code.old }
{
    let first = code.label()?;
    let second = code.label()?;
    Ok((first, second))
}

/// The next five labels.
#[tactic(auto, using(crate::proofs::Added::five_more))]
pub(crate) fn five_labels(
    code: &mut Code,
) -> Result<(Label, Label, Label, Label, Label), AllocError>
    ensures first { IfOk result (λ labels. labels.0 ≡ code.old.labels) }
    ensures second { IfOk result (λ labels. labels.1 ≡ code.old.labels + 1) }
    ensures third { IfOk result (λ labels. labels.2 ≡ code.old.labels + 2) }
    ensures fourth { IfOk result (λ labels. labels.3 ≡ code.old.labels + 3) }
    ensures fifth { IfOk result (λ labels. labels.4 ≡ code.old.labels + 4) }
    ensures more { OnOk result (code.new ≡ record code.old { labels = code.old.labels + 5 }) }
    ensures valid { IsAssembly code.old }
{
    let first = code.label()?;
    let second = code.label()?;
    let third = code.label()?;
    let fourth = code.label()?;
    let fifth = code.label()?;
    Ok((first, second, third, fourth, fifth))
}

/// The next eight labels.
#[tactic(auto, using(crate::proofs::Added::eight_more, crate::proofs::Added::sixth_label, crate::proofs::Added::seventh_label, crate::proofs::Added::eighth_label))]
pub(crate) fn eight_labels(
    code: &mut Code,
) -> Result<(Label, Label, Label, Label, Label, Label, Label, Label), AllocError>
    ensures first { IfOk result (λ labels. labels.0 ≡ code.old.labels) }
    ensures second { IfOk result (λ labels. labels.1 ≡ code.old.labels + 1) }
    ensures third { IfOk result (λ labels. labels.2 ≡ code.old.labels + 2) }
    ensures fourth { IfOk result (λ labels. labels.3 ≡ code.old.labels + 3) }
    ensures fifth { IfOk result (λ labels. labels.4 ≡ code.old.labels + 4) }
    ensures sixth { IfOk result (λ labels. labels.5 ≡ code.old.labels + 5) }
    ensures seventh { IfOk result (λ labels. labels.6 ≡ code.old.labels + 6) }
    ensures eighth { IfOk result (λ labels. labels.7 ≡ code.old.labels + 7) }
    ensures more { OnOk result (code.new ≡ record code.old { labels = code.old.labels + 8 }) }
    ensures valid { IsAssembly code.old }
{
    let (first, second, third, fourth, fifth) = five_labels(code)?;
    let (sixth, seventh) = two_labels(code)?;
    let eighth = code.label()?;
    Ok((first, second, third, fourth, fifth, sixth, seventh, eighth))
}
