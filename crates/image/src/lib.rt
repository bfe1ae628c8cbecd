//! Images: byte strings that spell a game.
//!
//! `judge` says whether bytes are an image and of which kind, or why they are refused. The arenas of one kind
//! are made of a `Judged` image, and read its bytes by `number` and `Section`.
#![tactic(auto)]

mod bytes;
mod candidate;
mod cell;
mod judgement;
mod kind;
mod opening;
mod refusal;

pub use bytes::{
    ASSUMPTION_SETS, GUARANTEE_SETS, INPUT_BITS, INPUTS, OUTPUT_BITS, REPLIES, STATES, Section,
    number,
};
pub use judgement::{GREATEST_LENGTH, judge};
pub use kind::{
    ASSUMPTION_ROWS, ASSUMPTIONS, BARRED, CONTROLLER_ROWS, ENVIRONMENT_ROWS, GUARANTEE_ROWS,
    GUARANTEES, Kind, NEXT_STATES, OPEN_FLAGS, START_ROWS, STARTS, UnknownKind, row_width,
};
pub use opening::Judged;
pub use refusal::Refusal;
