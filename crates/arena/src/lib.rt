//! What a game is, and the traits through which code asks one.
//!
//! `specs/` defines games, plays, strategies and winners. An arena is a value that means one game. What it means is a ghost
//! member of `Moves` and of `Arena`, beside the questions, with the law that it is lawful.
#![tactic(auto)]

ghost use Rattle.std.specs.Prelude.{◌≡◌};
ghost use Rattle.arena.specs.Game.{GameMoves, GameGoals, LawfulMoves, LawfulGoals, starts};

mod player;

pub use player::Player;

/// A value that means the moves of a game, and the questions about them. No question changes the arena, and every answer is its
/// game's, for any number: outside the game inputs are closed and replies barred.
pub trait Moves {
    ghost moves: { Self → GameMoves };

    /// How many states there are.
    fn states(&self) -> u16
        ensures { result ≡ (moves self.now).states };

    /// How many inputs there are.
    fn inputs(&self) -> u16
        ensures { result ≡ (moves self.now).inputs };

    /// How many replies there are.
    fn replies(&self) -> u16
        ensures { result ≡ (moves self.now).replies };

    /// Whether the environment may pick `input` at `state`.
    fn is_open(&self, state: u16, input: u16) -> bool
        ensures { result ≡ (moves self.now).opened state input };

    /// The state that `reply` to `input` leads to from `state`; none where the reply is barred.
    fn leads(&self, state: u16, input: u16, reply: u16) -> Option<u16>
        ensures { result ≡ (moves self.now).leads state input reply };

    // The moves are lawful.
    ghost lawful: { (a : Self) → LawfulMoves (moves a) };
}

/// A value that means a whole game, with the questions about its sets and starts. Nothing outside the game is in a set or is a
/// start. Assumptions and guarantees have a question each, as they stand on the two sides of the winning condition.
pub trait Arena: Moves {
    ghost goals: { Self → GameGoals };

    /// How many assumption sets there are.
    fn assumptions(&self) -> u16
        ensures { result ≡ (goals self.now).assumptions };

    /// How many guarantee sets there are.
    fn guarantees(&self) -> u16
        ensures { result ≡ (goals self.now).guarantees };

    /// Whether `state` is in assumption set `set`.
    fn in_assumption(&self, set: u16, state: u16) -> bool
        ensures { result ≡ (goals self.now).assumed set state };

    /// Whether `state` is in guarantee set `set`.
    fn in_guarantee(&self, set: u16, state: u16) -> bool
        ensures { result ≡ (goals self.now).guaranteed set state };

    /// Whether a play may start at `state`.
    fn is_start(&self, state: u16) -> bool
        ensures { result ≡ starts (goals self.now) state };

    // The goals are lawful too, over the states of the moves.
    ghost lawful: { (a : Self) → LawfulGoals (Self.moves a).states (goals a) };
}
