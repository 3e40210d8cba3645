//! The command line of `plm`: the order that its words give, and the values of the order's options.
#![tactic(auto)]

mod app;
mod arguments;
mod explained;
mod help;
mod names;
mod orders;
mod output_files;
mod port_files;
mod reading;
mod start_memory;
mod values;

pub use mem80::Plan;
pub use orders::{
    Action, CompileOrder, ConvertOrder, ExecuteOrder, ExplainOrder, LinkOrder, NeedOrder, Order,
    PlaceAction, PlaceOrder, PlanTexts, ProgramOrder, Watch,
};
pub use port_files::PortFile;
pub use reading::{LineFault, command};
pub use start_memory::MemoryByte;
pub use values::{InputByte, Settings, ValueFault};
