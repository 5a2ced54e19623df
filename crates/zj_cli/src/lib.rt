//! The top call: all that the program does, from the words of the command line and the bytes of the input to
//! the bytes of the output and the status.
#![tactic(auto)]

mod asked;
mod check;
mod dump;
mod make;
mod phase;
mod play;
mod status;
mod stream;
mod tool;

pub use phase::{Phase, PhaseKind};
pub use status::{Fault, ImageFault, Status};
pub use tool::zj_tool;
pub use zj_dev::Span;
