ghost use Rattle.std.specs.Prelude.{◌≡◌, Some, codes};
ghost use Rattle.image.specs.Format.{Names, pairs_of, header_end, bounds_of, row_width_of, cell_of, field_of, width_of};

use crate::cell::Cell;
use std::error::Error;
use std::fmt;

// The sections of a kind are numbers and no enum: a refusal tells a pair by its number, and `Section::read` takes any number.

/// The pair of a table's open flags.
pub const OPEN_FLAGS: u8 = 0;

/// The pair of a table's next states.
pub const NEXT_STATES: u8 = 1;

/// The pair of a table's assumption sets.
pub const ASSUMPTIONS: u8 = 2;

/// The pair of a table's guarantee sets.
pub const GUARANTEES: u8 = 3;

/// The pair of a table's starts.
pub const STARTS: u8 = 4;

/// The pair of the rows of rules that close inputs.
pub const ENVIRONMENT_ROWS: u8 = 0;

/// The pair of the rows of rules that bar replies.
pub const CONTROLLER_ROWS: u8 = 1;

/// The pair of the rows of rules that make assumption sets.
pub const ASSUMPTION_ROWS: u8 = 2;

/// The pair of the rows of rules that make guarantee sets.
pub const GUARANTEE_ROWS: u8 = 3;

/// The pair of the rows of rules that make the starts.
pub const START_ROWS: u8 = 4;

/// The next state that means a barred reply.
pub const BARRED: u16 = 65535;

/// The formats of an image.
#[derive(Clone, Copy, PartialEq, Eq, Debug)]
pub enum Kind {
    /// The game as a table: a flag or a number for each question.
    Table,
    /// The game as rules over signals: rows of masks that must hold.
    Rules,
}

/// The error of a number that names no kind.
#[derive(Clone, Copy, PartialEq, Eq, Debug)]
pub struct UnknownKind;

impl fmt::Display for UnknownKind {
    ghost output = { λ _. Some (codes "the number names no kind of image") };

    fn fmt<W: fmt::Write>(&self, f: &mut fmt::Formatter<W>) -> fmt::Result {
        f.write_str("the number names no kind of image")
    }
}

impl Error for UnknownKind {}

impl TryFrom<u16> for Kind {
    type Error = UnknownKind;

    ghost try_from_gives = { Names };

    fn try_from(number: u16) -> Result<Kind, UnknownKind> {
        match number {
            1 => Ok(Kind::Table),
            2 => Ok(Kind::Rules),
            _ => Err(UnknownKind),
        }
    }
}

impl Kind {
    // How many pairs of offset and length the header has.
    pub(crate) fn pairs(self) -> u8
        ensures { result ≡ pairs_of self }
    {
        match self {
            Kind::Table | Kind::Rules => 5,
        }
    }

    // Where the header ends, and the first section may begin.
    pub(crate) fn header_end(self) -> usize
        ensures { result ≡ header_end self }
    {
        match self {
            Kind::Table | Kind::Rules => 32,
        }
    }

    // The least and the greatest value of each header number after the kind.
    pub(crate) fn bounds(self) -> [(u16, u16); 5]
        ensures { result ≡ bounds_of self }
    {
        match self {
            Kind::Table => [(1, 1024), (1, 64), (1, 64), (1, 8), (1, 8)],
            Kind::Rules => [(1, 6), (1, 6), (0, 0), (1, 8), (1, 8)],
        }
    }

    // What a cell of a section holds.
    pub(crate) fn cell(self, pair: u8, cell: usize) -> Cell
        ensures { result ≡ cell_of self pair cell }
    {
        match self {
            Kind::Table if pair == NEXT_STATES => Cell::Target,
            Kind::Table => Cell::Flag,
            Kind::Rules => field(pair, cell % (row_width(pair) / 2)),
        }
    }

    // How many bytes a cell of a section has.
    pub(crate) fn width(self, pair: u8) -> usize
        ensures { result ≡ width_of self pair }
    {
        match self {
            Kind::Table if pair == NEXT_STATES => 2,
            Kind::Table => 1,
            Kind::Rules => 2,
        }
    }
}

/// How many bytes a row of a section of rules has.
pub fn row_width(pair: u8) -> usize
    ensures { result ≡ row_width_of pair }
{
    match pair {
        ENVIRONMENT_ROWS | CONTROLLER_ROWS => 8,
        ASSUMPTION_ROWS | GUARANTEE_ROWS => 6,
        _ => 4,
    }
}

// What a field of a row of rules holds, by its place in the row.
fn field(pair: u8, place: usize) -> Cell
    ensures { result ≡ field_of pair place }
{
    match pair {
        ENVIRONMENT_ROWS if place >= 2 => Cell::InputMask,
        ASSUMPTION_ROWS if place == 0 => Cell::AssumptionSet,
        GUARANTEE_ROWS if place == 0 => Cell::GuaranteeSet,
        _ => Cell::Mask,
    }
}
