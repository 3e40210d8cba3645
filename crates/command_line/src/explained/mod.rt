//! What is printed of the number of a fault, and of a word with which a run ends.

ghost use Rattle.std.specs.Prelude.{◌≡◌, IfOk, find, map, option_map};
ghost use Rattle.command_line.specs.Explained.{is_page_of, page_in, page_of, pages_in};
ghost use Rattle.command_line.specs.internal.Pages.{page_among};

mod files;
mod programs;
mod sources;

use files::FILES;
use programs::PROGRAMS;
use sources::SOURCES;
use std::alloc::{AllocError, Global};

// The byte between two pages.
const FORM_FEED: u8 = 12;

// The pages of a text.
fn pages_in<'a>(alloc: Global, text: &'a [u8]) -> Result<Vec<&'a [u8]>, AllocError>
    ensures { IfOk result (λ pages. map (λ page. page.now) pages.items ≡ pages_in text.now) }
{
    text.split(|byte| *byte == FORM_FEED).collect(alloc)
}

// Whether a page is that of a number.
fn is_page_of(number: &[u8], page: &[u8]) -> bool
    ensures { result ≡ is_page_of number.now page.now }
{
    let size = number.len();
    page.len() > size && page[size] == b'\n' && page[..size].eq_ignore_ascii_case(number)
}

// The page of a number among others.
fn find_page<'a>(pages: &[&'a [u8]], number: &[u8]) -> Option<&'a [u8]>
    ensures { option_map (λ page. page.now) result
        ≡ find (is_page_of number.now) (map (λ page. page.now) pages.now) }
{
    let mut rest = pages;
    while let [page, more @ ..] = rest {
        if is_page_of(number, page) {
            return Some(*page);
        }
        rest = more;
    }
    None
}

#[tactic(auto, unfolding(crate::specs::Explained::page_in))]
// The page of a number in a text.
fn page_in<'a>(alloc: Global, text: &'a [u8], number: &[u8]) -> Result<Option<&'a [u8]>, AllocError>
    ensures { IfOk result (λ found.
        option_map (λ page. page.now) found ≡ page_in text.entry.now number.now) }
{
    let pages = pages_in(alloc, text)?;
    let found = find_page(pages.as_slice(), number);
    drop(pages);
    Ok(found)
}

// The page of a number in the first of several texts that has one.
fn page_among<'a>(
    alloc: Global,
    texts: &[&'a [u8]],
    number: &[u8],
) -> Result<Option<&'a [u8]>, AllocError>
    ensures { IfOk result (λ found. option_map (λ page. page.now) found
        ≡ page_among (map (λ text. text.now) texts.now) number.now) }
{
    let mut rest = texts;
    while let [text, more @ ..] = rest {
        if let Some(page) = page_in(alloc, *text, number)? {
            return Ok(Some(page));
        }
        rest = more;
    }
    Ok(None)
}

/// What is printed of the number of a fault, or of a word with which a run ends, where there is such a one. The case of letters
/// does not count.
pub(crate) fn page(alloc: Global, number: &str) -> Result<Option<&'static [u8]>, AllocError>
    ensures { IfOk result (λ found. option_map (λ page. page.now) found ≡ page_of number.now) }
{
    page_among(alloc, &[&SOURCES, &PROGRAMS, &FILES], number.as_bytes())
}
