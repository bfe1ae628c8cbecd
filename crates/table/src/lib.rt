//! The game that a table spells, as an arena.
#![tactic(auto)]

mod table;
mod worked;

pub use table::Table;
pub use worked::worked_image;
