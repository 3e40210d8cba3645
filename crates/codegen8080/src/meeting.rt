//! Facts at points that several paths reach.

ghost use Rattle.std.specs.Prelude.{◌≡◌};
ghost use Rattle.codegen8080.specs.internal.Generated.{arriving, common, common_location, here_after, known_here, met, waiting_after};

use exprgen8080::Facts;
use statements8080::Planned;
use treecode::Location;

/// The end of code: the facts about the registers there, and whether the end can be reached.
#[derive(Clone, Copy)]
pub struct Here {
    pub facts: Facts,
    pub goes_on: bool,
}

// The location, if both are the same.
fn common_location(one: Option<Location>, other: Option<Location>) -> Option<Location>
    ensures { result ≡ common_location one other }
{
    match (one, other) {
        (Some(one), Some(other)) if one == other => Some(one),
        _ => None,
    }
}

// The facts that hold in both.
fn common(one: Facts, other: Facts) -> Facts
    ensures { result ≡ common one other }
{
    Facts {
        byte_in_a: common_location(one.byte_in_a, other.byte_in_a),
        word_in_hl: common_location(one.word_in_hl, other.word_in_hl),
        address_in_hl: common_location(one.address_in_hl, other.address_in_hl),
        zero_shows_a: one.zero_shows_a && other.zero_shows_a,
    }
}

// The facts at a point that two paths may reach; none if neither path does.
fn met(one: Option<Facts>, other: Option<Facts>) -> Option<Facts>
    ensures { result ≡ met one other }
{
    match (one, other) {
        (Some(one), Some(other)) => Some(common(one, other)),
        (Some(facts), None) | (None, Some(facts)) => Some(facts),
        (None, None) => None,
    }
}

// The facts at the end of code, if the end can be reached.
fn known_here(here: Here) -> Option<Facts>
    ensures { result ≡ known_here here }
{
    if here.goes_on { Some(here.facts) } else { None }
}

/// A point that code reaches with these facts, if any.
pub(crate) fn arriving(facts: Option<Facts>) -> Here
    ensures { result ≡ arriving facts }
{
    match facts {
        Some(facts) => Here {
            facts,
            goes_on: true,
        },
        None => Here {
            facts: Facts::none(),
            goes_on: false,
        },
    }
}

/// The end of the code after a step that holds no statement, from the end before it and the facts after the code of the
/// step. `waiting` are the facts at the label to which the code before `Jumped` jumps.
#[tactic(auto, unfolding(crate::specs::internal::Generated::here_after))]
pub(crate) fn here_after(here: Here, waiting: Option<Facts>, known: Facts, step: Planned) -> Here
    ensures { result ≡ here_after here waiting known step }
{
    match step {
        Planned::Turn { .. } => arriving(waiting),
        Planned::Meet(_) => arriving(met(known_here(here), waiting)),
        Planned::Again {
            label: _,
            facts,
            is_entered,
        } => {
            let entered = if is_entered { known_here(here) } else { None };
            arriving(met(entered, Some(facts)))
        }
        Planned::Reaches(goes_on) => Here {
            facts: known,
            goes_on,
        },
        Planned::Code(_)
        | Planned::Statement(_)
        | Planned::List(_)
        | Planned::LoadByte(_)
        | Planned::LoadWord(_)
        | Planned::Jumped { .. }
        | Planned::JumpOn(_) => Here {
            facts: known,
            goes_on: here.goes_on,
        },
    }
}

/// The waiting facts after a step that holds no statement.
#[tactic(auto, unfolding(crate::specs::internal::Generated::waiting_after))]
pub(crate) fn waiting_after(here: Here, waiting: Option<Facts>, step: Planned) -> Option<Facts>
    ensures { result ≡ waiting_after here waiting step }
{
    match step {
        Planned::Jumped { is_the_only_one } => Some(if is_the_only_one {
            here.facts
        } else {
            Facts::none()
        }),
        Planned::Turn { .. } => known_here(here),
        Planned::Code(_)
        | Planned::Statement(_)
        | Planned::List(_)
        | Planned::LoadByte(_)
        | Planned::LoadWord(_)
        | Planned::JumpOn(_)
        | Planned::Meet(_)
        | Planned::Again { .. }
        | Planned::Reaches(_) => waiting,
    }
}
