ghost use Rattle.std.specs.Prelude.{◌≡◌};
ghost use Rattle.opened.specs.Opened.{image_moves, image_goals, spelled_moves, spelled_goals};
ghost use Rattle.opened.specs.Lawful.{image_moves_lawful, image_goals_lawful};

use arena::{Arena, Moves};
use image::{Judged, Kind};
use rules::Rules;
use table::Table;

/// A game that an image of some kind spells. Every question reads the caller's bytes.
#[derive(Clone, Copy, PartialEq, Eq, Debug)]
pub enum Image<'a> {
    /// An image of a table.
    Table(Table<'a>),
    /// An image of rules.
    Rules(Rules<'a>),
}

impl<'a> Image<'a> {
    /// Opens the bytes of an image of any kind; bytes that are refused open the built-in table.
    pub fn open(bytes: &'a [u8]) -> Image<'a>
        ensures moves { image_moves result ≡ spelled_moves bytes.now }
        ensures goals { image_goals result ≡ spelled_goals bytes.now }
    {
        let judged = Judged::open(bytes);
        match judged.kind() {
            Kind::Table => Image::Table(Table::of(judged)),
            Kind::Rules => Image::Rules(Rules::of(judged)),
        }
    }
}

// Asks the arena of either kind.
macro_rules! ask {
    ($image:expr, $question:ident($($number:expr),*)) => {
        match $image {
            Image::Table(table) => table.$question($($number),*),
            Image::Rules(rules) => rules.$question($($number),*),
        }
    };
}

impl Moves for Image<'_> {
    ghost moves = { image_moves };

    fn states(&self) -> u16 {
        ask!(self, states())
    }

    fn inputs(&self) -> u16 {
        ask!(self, inputs())
    }

    fn replies(&self) -> u16 {
        ask!(self, replies())
    }

    fn is_open(&self, state: u16, input: u16) -> bool {
        ask!(self, is_open(state, input))
    }

    fn leads(&self, state: u16, input: u16, reply: u16) -> Option<u16> {
        ask!(self, leads(state, input, reply))
    }

    ghost lawful = { image_moves_lawful };
}

impl Arena for Image<'_> {
    ghost goals = { image_goals };

    fn assumptions(&self) -> u16 {
        ask!(self, assumptions())
    }

    fn guarantees(&self) -> u16 {
        ask!(self, guarantees())
    }

    fn in_assumption(&self, set: u16, state: u16) -> bool {
        ask!(self, in_assumption(set, state))
    }

    fn in_guarantee(&self, set: u16, state: u16) -> bool {
        ask!(self, in_guarantee(set, state))
    }

    fn is_start(&self, state: u16) -> bool {
        ask!(self, is_start(state))
    }

    ghost lawful = { image_goals_lawful };
}
