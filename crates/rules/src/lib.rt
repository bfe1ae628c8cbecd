//! The game that rules over signals spell, as an arena.
#![tactic(auto)]

mod row;
mod rules;
mod worked;

pub use rules::Rules;
pub use worked::worked_image;
