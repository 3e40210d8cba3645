//! Sources that `plm convert` refuses, as it looks at their words.

use crate::explanation::Seen;
use command_line::{ConvertOrder, Order, command};
use convert::{Medium, all_advice, assemble, plain, prepare};
use std::alloc::{AllocError, Global};

// What an order to convert leaves of the lines of a file of this name. None is added or taken away: the line of an INCLUDE is
// empty.
fn lines_left(
    alloc: Global,
    order: &ConvertOrder,
    name: &str,
    file: &[u8],
) -> Result<Vec<u8>, AllocError> {
    let is_source = name == order.file;
    let medium = Medium {
        listing: is_source && order.listing,
        cards: is_source && order.cards,
    };
    let prepared = prepare(alloc, all_advice(), medium, file)?;
    let source = plain(alloc, prepared.text.as_slice())?;
    let sets = order.sets.as_slice();
    let assembly = assemble(alloc, all_advice(), &[], &[], sets, source.as_slice())?;
    Ok(assembly.text)
}

// The same of an order, if it is one to convert.
fn lines_for(
    alloc: Global,
    order: &Order,
    name: &str,
    file: &[u8],
) -> Result<Option<Vec<u8>>, AllocError> {
    match order {
        Order::Convert(convert) => {
            let lines = lines_left(alloc, convert, name, file)?;
            Ok(Some(lines))
        }
        _ => Ok(None),
    }
}

/// The text of a file of this name in which the command looks for the words of a source, where that is not the file itself.
pub(crate) fn text_of_words(
    seen: &Seen,
    name: &str,
    file: &[u8],
) -> Result<Option<Vec<u8>>, AllocError> {
    match command(seen.alloc, seen.words) {
        Ok(order) => lines_for(seen.alloc, &order, name, file),
        // The words gave an order before, which was refused: so memory ran out.
        Err(_) => Err(AllocError),
    }
}
