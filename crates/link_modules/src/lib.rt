//! Modules merged into one, wherever their names and bytes lie; and the merge of object modules.
#![tactic(auto)]

mod contents;
mod growing;
mod inputs;
mod linkable;
mod mains;
mod merged;
mod merging;
mod modules;
mod names;
mod pieces;
mod placed;
mod publics;
mod resolved;
mod runs;

pub use growing::{GrowingSegment, Stretch};
pub use inputs::Input;
pub use link_laws::LinkFault;
pub use linkable::{Linkable, Named};
pub use merged::Merged;
pub use merging::{link, merge};
pub use resolved::Resolved;
