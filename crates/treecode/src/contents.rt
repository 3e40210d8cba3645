//! The contents of the segments of a module.

ghost use Rattle.std.specs.Prelude.{◌≡◌, ◌-◌, [], ◌∷◌, ◌++◌, map, sum_by, IfOk, OnOk};
ghost use Rattle.typed_trees.specs.Views.{module_view, object_view};
ghost use Rattle.treecode.specs.declared.module.Content.TheVariants.{Byte};
ghost use Rattle.treecode.specs.internal.Contents.{constants_of, constant_object, content_of, size_of_value, static_object, variables_of, with_constant, with_gap, with_gap_if_any, with_object};
ghost use Rattle.treecode.specs.internal.Nodes.{nodes_of};

use crate::lowering::capped;
use crate::module::{Content, TreeModule};
use crate::place::{Home, Place};
use std::alloc::{AllocError, Global};
use typed_trees::{ConstantItem, Home as TypedHome, InitialValue, Typed, TypedObject};

// Adds `last` and then `count` unset bytes, as one gap if `last` is a gap and one gap holds both.
fn add_with_gap(contents: &mut Vec<Content>, last: Content, count: u16) -> Result<(), AllocError>
    ensures { OnOk result (contents.new.items ≡ contents.old.items ++ with_gap (last ∷ []) count) }
{
    if let Content::Gap(before) = last {
        if before > 0 {
            if let Some(joined) = before.checked_add(count) {
                contents.push(Content::Gap(joined))?;
                return Ok(());
            }
        }
    }
    contents.push(last)?;
    contents.push(Content::Gap(count))?;
    Ok(())
}

// Adds `count` unset bytes, joined with a gap just before.
#[tactic(auto, using(crate::proofs::ContentLoops::gap_added))]
fn add_gap(contents: &mut Vec<Content>, count: u16) -> Result<(), AllocError>
    ensures { OnOk result (contents.new.items ≡ with_gap_if_any contents.old.items count) }
{
    if count == 0 {
        return Ok(());
    }
    match contents.pop() {
        Some(last) => add_with_gap(contents, last, count),
        None => {
            contents.push(Content::Gap(count))?;
            Ok(())
        }
    }
}

// A value of INITIAL or DATA.
fn content_of(tree: &TreeModule, value: InitialValue) -> Content
    ensures { result ≡ content_of (nodes_of tree.now).homes value }
{
    match value {
        InitialValue::ByteValue(byte) => Content::Byte(byte),
        InitialValue::WordValue(word) => Content::Word(Place::Number(word)),
        InitialValue::LocationValue { object, offset } => match tree.home(object) {
            Home::Static(place) => Content::Word(place.after(offset)),
            Home::Based(_) | Home::Frame(_) => Content::Word(Place::Number(offset)),
        },
    }
}

// The size of a value of INITIAL or DATA in bytes.
fn size_of_value(value: InitialValue) -> u32
    ensures { result ≡ size_of_value value }
{
    match value {
        InitialValue::ByteValue(_) => 1,
        InitialValue::WordValue(_) | InitialValue::LocationValue { .. } => 2,
    }
}

// Adds values of INITIAL or DATA, and returns how many of `size` bytes remain.
fn add_values(
    tree: &TreeModule,
    contents: &mut Vec<Content>,
    values: &[InitialValue],
    size: u32,
) -> Result<u32, AllocError>
    ensures items { OnOk result (contents.new.items
        ≡ contents.old.items ++ map (content_of (nodes_of tree.now).homes) values.now) }
    ensures left { IfOk result (λ left. left ≡ size - sum_by size_of_value values.now) }
{
    let mut left = size;
    let mut rest = values;
    while let [value, more @ ..] = rest {
        contents.push(content_of(tree, *value))?;
        left = left.saturating_sub(size_of_value(*value));
        rest = more;
    }
    Ok(left)
}

// Adds the bytes of an object, with values from its start on.
fn add_object(
    tree: &TreeModule,
    contents: &mut Vec<Content>,
    object: &TypedObject,
    values: &[InitialValue],
) -> Result<(), AllocError>
    ensures { OnOk result (contents.new.items
        ≡ with_object (nodes_of tree.now).homes (object_view object.now) values.now contents.old.items) }
{
    let left = add_values(tree, contents, values, object.size())?;
    add_gap(contents, capped(left))
}

// Adds the bytes of a constant list.
fn add_list(contents: &mut Vec<Content>, bytes: &[u8]) -> Result<(), AllocError>
    ensures { OnOk result (contents.new.items ≡ contents.old.items ++ map Byte bytes.now) }
{
    let mut rest = bytes;
    while let [byte, more @ ..] = rest {
        contents.push(Content::Byte(*byte))?;
        rest = more;
    }
    Ok(())
}

// Adds an object with DATA.
fn add_constant_object(
    tree: &TreeModule,
    contents: &mut Vec<Content>,
    object: &TypedObject,
) -> Result<(), AllocError>
    ensures { OnOk result (contents.new.items ≡ constant_object (nodes_of tree.now).homes
        (object_view object.now) (object_view object.now).home contents.old.items) }
{
    match &object.home {
        TypedHome::Constant(values) => add_object(tree, contents, object, values.as_slice()),
        TypedHome::Data(_)
        | TypedHome::At(_)
        | TypedHome::Based(_)
        | TypedHome::External
        | TypedHome::Absent
        | TypedHome::Frame(_) => Ok(()),
    }
}

// Adds an object without AT and DATA.
fn add_static_object(
    tree: &TreeModule,
    contents: &mut Vec<Content>,
    object: &TypedObject,
) -> Result<(), AllocError>
    ensures { OnOk result (contents.new.items ≡ static_object (nodes_of tree.now).homes
        (object_view object.now) (object_view object.now).home contents.old.items) }
{
    match &object.home {
        TypedHome::Data(values) => add_object(tree, contents, object, values.as_slice()),
        TypedHome::Constant(_)
        | TypedHome::At(_)
        | TypedHome::Based(_)
        | TypedHome::External
        | TypedHome::Absent
        | TypedHome::Frame(_) => Ok(()),
    }
}

// Adds an object with DATA or a constant list.
fn add_constant(
    tree: &TreeModule,
    typed: &Typed,
    contents: &mut Vec<Content>,
    item: ConstantItem,
) -> Result<(), AllocError>
    ensures { OnOk result (contents.new.items
        ≡ with_constant (module_view typed.now) (nodes_of tree.now).homes item contents.old.items) }
{
    match item {
        ConstantItem::ConstantObject(number) => match typed.objects.get(number as usize) {
            Some(object) => add_constant_object(tree, contents, object),
            None => Ok(()),
        },
        ConstantItem::ConstantList(number) => match typed.lists.get(number as usize) {
            Some(bytes) => add_list(contents, bytes.as_slice()),
            None => Ok(()),
        },
    }
}

/// The contents at the start of the code segment: the objects with DATA and the constant lists, in the order of the
/// text.
#[tactic(auto, unfolding(crate::specs::internal::Contents::constants_of))]
pub(crate) fn constants_of(
    alloc: Global,
    tree: &TreeModule,
    typed: &Typed,
) -> Result<Vec<Content>, AllocError>
    ensures { IfOk result (λ contents. contents.items
        ≡ constants_of (module_view typed.now) (nodes_of tree.now).homes) }
{
    let mut contents = Vec::new(alloc);
    let mut rest = typed.constants.as_slice();
    while let [item, more @ ..] = rest {
        add_constant(tree, typed, &mut contents, *item)?;
        rest = more;
    }
    Ok(contents)
}

/// The contents of the data segment: the objects without AT and DATA, in the order of their declarations.
#[tactic(auto, unfolding(crate::specs::internal::Contents::variables_of))]
pub(crate) fn variables_of(
    alloc: Global,
    tree: &TreeModule,
    typed: &Typed,
) -> Result<Vec<Content>, AllocError>
    ensures { IfOk result (λ contents. contents.items
        ≡ variables_of (module_view typed.now) (nodes_of tree.now).homes) }
{
    let mut contents = Vec::new(alloc);
    let mut rest = typed.objects.as_slice();
    while let [object, more @ ..] = rest {
        add_static_object(tree, &mut contents, object)?;
        rest = more;
    }
    Ok(contents)
}
