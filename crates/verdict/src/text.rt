ghost use Rattle.std.specs.Prelude.{◌≡◌, IfOk, Some, string_bytes};
ghost use Rattle.verdict.specs.Text.{letter_of, verdicts_text, answer_text};

use crate::answer::{Answer, Verdicts};
use arena::Player;
use std::alloc::{AllocError, Global};
use std::fmt;

/// What the program prints of an answer: a line a state and whether the game is realizable, or why the image is refused.
pub fn answer_text(heap: Global, answer: &Answer) -> Result<String, AllocError>
    ensures { IfOk result (λ s. string_bytes s ≡ answer_text answer.now) }
{
    answer.to_string(heap)
}

/// The refusal on a line, or the verdicts.
impl fmt::Display for Answer {
    ghost output = { λ a. Some (answer_text a) };

    fn fmt<W: fmt::Write>(&self, f: &mut fmt::Formatter<W>) -> fmt::Result {
        match self {
            Answer::Refused(refusal) => writeln!(f, "refused {refusal}"),
            Answer::Solved(verdicts) => write!(f, "{verdicts}"),
        }
    }
}

/// A line for each state, and one that says whether the game is realizable.
impl fmt::Display for Verdicts {
    ghost output = { λ v. Some (verdicts_text v) };

    fn fmt<W: fmt::Write>(&self, f: &mut fmt::Formatter<W>) -> fmt::Result {
        for (state, winner) in self.winners.iter().enumerate() {
            writeln!(f, "{state} {}", letter(*winner))?;
        }
        let answer = if self.realizable { "yes" } else { "no" };
        writeln!(f, "realizable {answer}")
    }
}

// The letter of a player. It is the program's, and so not how a `Player` is displayed.
fn letter(winner: Player) -> &'static str
    ensures { result.now ≡ letter_of winner }
{
    match winner {
        Player::Controller => "c",
        Player::Environment => "e",
    }
}
