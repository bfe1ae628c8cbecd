ghost use Rattle.std.specs.Prelude.{◌≡◌};
ghost use Rattle.arena.specs.Examples.{Known};
ghost use Rattle.arena.specs.Winner.{NotBoth, other};

/// The two sides of a game.
#[derive(Clone, Copy, PartialEq, Eq, Debug)]
pub enum Player {
    /// Picks the replies.
    Controller,
    /// Picks the inputs.
    Environment,
}

impl Player {
    /// The other side. No state of any game is won by both, and each side wins small games that are known to be its own.
    #[tactic(auto, using(crate::proofs::NotBoth::not_both, crate::proofs::SmallGames::known))]
    pub fn opponent(self) -> Player
        ensures value { result ≡ other self }
        ensures not_both { NotBoth }
        ensures known { Known }
    {
        match self {
            Player::Controller => Player::Environment,
            Player::Environment => Player::Controller,
        }
    }
}
