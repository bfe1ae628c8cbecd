ghost use Rattle.std.specs.Prelude.{◌≡◌, true, is_ok, IfOk, Decides, MatchResult, slice_index_or};
ghost use Rattle.arena.specs.declared.player.Player.TheVariants.{Environment};
ghost use Rattle.image.specs.Judging.{judged};
ghost use Rattle.verdict.specs.Answers.{Answers, Complete, StartsWon, is_controller};

use arena::{Arena, Moves, Player};
use image::{Refusal, judge};
use opened::Image;
use std::alloc::{AllocError, Global};

/// What is told of an image. A refusal is an answer, and no error of the call that gives it.
#[derive(PartialEq, Eq, Debug, Drop)]
pub enum Answer {
    /// The bytes are no image, and why.
    Refused(Refusal),
    /// The verdicts of the game that the image spells.
    Solved(Verdicts),
}

/// Who wins each state, and whether every start is the controller's.
#[derive(PartialEq, Eq, Debug, Drop)]
pub struct Verdicts {
    /// The winner of each state, in the order of the states.
    pub winners: Vec<Player>,
    /// Whether the controller wins every start.
    pub realizable: bool,
}

/// Answers the bytes of an image: why they are refused, or the verdicts of the game that they spell. Memory can be wanting only
/// for verdicts.
pub fn answer_image(heap: Global, bytes: &[u8]) -> Result<Answer, AllocError>
    ensures { MatchResult result (Answers bytes.now) (λ _. is_ok (judged bytes.now) ≡ true) }
{
    match judge(bytes) {
        Ok(_) => Ok(Answer::Solved(solve(heap, &Image::open(bytes))?)),
        Err(refusal) => Ok(Answer::Refused(refusal)),
    }
}

// The verdicts of the arena's game.
fn solve<A: Arena>(heap: Global, arena: &A) -> Result<Verdicts, AllocError>
    ensures { IfOk result (Complete (A.moves arena.now) (A.goals arena.now)) }
{
    let winners = textbook::winners(heap, arena)?;
    let realizable = starts_are_won(arena, &winners);
    Ok(Verdicts {
        winners,
        realizable,
    })
}

// Whether every start is the controller's.
fn starts_are_won<A: Arena>(arena: &A, winners: &[Player]) -> bool
    ensures { Decides result (StartsWon (A.goals arena.now) winners.now) }
{
    (0..arena.states()).all(|state| !arena.is_start(state) || is_won(winners, usize::from(state)))
}

// Whether the state is the controller's.
fn is_won(winners: &[Player], state: usize) -> bool
    ensures { result ≡ is_controller (slice_index_or winners.now state Environment) }
{
    winners.get(state) == Some(&Player::Controller)
}
