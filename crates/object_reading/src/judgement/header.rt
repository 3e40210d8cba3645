//! What a valid file says of itself.

use object_modules::Alignment;

/// What a valid file says besides its names, contents and fixes. It borrows the file.
#[derive(Clone, Copy)]
pub struct Header<'a> {
    /// 1 to 31 characters.
    pub name: &'a [u8],
    pub code_length: u16,
    pub code_alignment: Alignment,
    pub data_length: u16,
    pub data_alignment: Alignment,
    pub stack_length: u16,
    /// Where a main module starts, an offset in its code.
    pub start: Option<u16>,
}
