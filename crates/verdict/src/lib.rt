//! From the bytes of an image to what is told of it.
#![tactic(auto)]

mod answer;
mod text;

pub use answer::{Answer, Verdicts, answer_image};
pub use text::answer_text;
