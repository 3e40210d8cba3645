//! Bodies of a call graph.

/// A body: the charge of a call of it (4,294,967,295 if it is more), and the numbers of the bodies that are called
/// in it.
#[derive(Drop)]
pub struct Body {
    pub charge: u32,
    pub callees: Vec<usize>,
}
