//! An opened image of any kind as one arena, so that nothing above asks for the kind.
#![tactic(auto)]

mod opened;

pub use opened::Image;
