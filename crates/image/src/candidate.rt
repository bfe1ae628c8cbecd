ghost use Rattle.std.specs.Prelude.{◌≡◌, ◌<◌, ℕ, slice_index};
ghost use Rattle.image.specs.declared.cell.Cell.{Cell};
ghost use Rattle.image.specs.Format.{too_many_bits, table_sizes, size_fits, cell_of};
ghost use Rattle.image.specs.Judging.{number_offset, number_bad, bad_number, earliest_start, misplaced, misplaced_pair, section_of_wrong_length, bad_cell, bad_value};

use crate::bytes::{
    ASSUMPTION_SETS, GUARANTEE_SETS, INPUTS, REPLIES, STATES, Section, number, state_bits,
};
use crate::cell::{Bounds, Cell};
use crate::kind::{
    ASSUMPTION_ROWS, ASSUMPTIONS, ENVIRONMENT_ROWS, GUARANTEE_ROWS, GUARANTEES, Kind, NEXT_STATES,
    OPEN_FLAGS, START_ROWS, STARTS, row_width,
};

// The most bits that a state of rules has.
const MOST_BITS: u32 = 10;

// Bytes that are taken for an image of a kind.
#[derive(Clone, Copy)]
pub(crate) struct Candidate<'a> {
    pub(crate) kind: Kind,
    pub(crate) bytes: &'a [u8],
}

impl Candidate<'_> {
    // The offset of the first header number that is out of range.
    pub(crate) fn bad_number(self) -> Option<usize>
        ensures { result ≡ bad_number self.entry.kind self.entry.bytes.now }
    {
        (0..5).find(|h| self.number_is_bad(*h)).map(number_offset)
    }

    // Whether header number `h` after the kind is out of range.
    fn number_is_bad(self, h: usize) -> bool
        requires { h < 5 }
        ensures { result ≡ number_bad self.entry.kind self.entry.bytes.now h }
    {
        let n = number(self.bytes, number_offset(h));
        let (least, greatest) = self.kind.bounds()[h];
        !(least..=greatest).contains(&n) || self.has_too_many_bits(h)
    }

    // Whether header number `h` makes too many bits together with those before it.
    fn has_too_many_bits(self, h: usize) -> bool
        ensures { result ≡ too_many_bits self.entry.kind self.entry.bytes.now h }
    {
        match self.kind {
            Kind::Table => false,
            Kind::Rules => h == 1 && state_bits(self.bytes) > MOST_BITS,
        }
    }

    // The first pair whose section lies where it may not.
    #[tactic(auto, unfolding(search::specs::First::lowest))]
    pub(crate) fn misplaced_pair(self) -> Option<u8>
        ensures { result ≡ misplaced_pair self.entry.kind self.entry.bytes.now }
    {
        (0..self.kind.pairs()).find(|pair| self.is_misplaced(*pair))
    }

    // Whether the section of a pair begins too early, or ends past the image.
    fn is_misplaced(self, pair: u8) -> bool
        ensures { result ≡ misplaced self.entry.kind self.entry.bytes.now pair }
    {
        let section = Section::read(self.bytes, pair);
        section.offset < self.earliest(pair) || section.offset + section.size > self.bytes.len()
    }

    // Where the section of a pair may begin at the earliest.
    fn earliest(self, pair: u8) -> usize
        ensures { result ≡ earliest_start self.entry.kind self.entry.bytes.now pair }
    {
        if pair == 0 {
            return self.kind.header_end();
        }
        let before = Section::read(self.bytes, pair - 1);
        before.offset + before.size
    }

    // The first section that has a length that it may not have.
    #[tactic(auto, unfolding(search::specs::First::lowest))]
    pub(crate) fn section_of_wrong_length(self) -> Option<u8>
        ensures { result ≡ section_of_wrong_length self.entry.kind self.entry.bytes.now }
    {
        (0..self.kind.pairs()).find(|pair| !self.size_fits(*pair))
    }

    // Whether the section of a pair has a length that it may have.
    fn size_fits(self, pair: u8) -> bool
        ensures { result ≡ size_fits self.entry.kind self.entry.bytes.now pair }
    {
        let size = Section::read(self.bytes, pair).size;
        match self.kind {
            Kind::Table => size == table_size(self.bytes, pair),
            Kind::Rules => size % row_width(pair) == 0,
        }
    }

    // The offset of the first value that is not allowed.
    pub(crate) fn bad_value(self) -> Option<usize>
        ensures { result ≡ bad_value self.entry.kind self.entry.bytes.now }
    {
        (0..self.kind.pairs()).find_map(|pair| self.bad_cell(pair))
    }

    // The offset of the first bad cell of a section. Each arm is a walk of its own, in which the kind is written out, and a section
    // whose cells are those of the pair's: so neither is asked for at a cell.
    fn bad_cell(self, pair: u8) -> Option<usize>
        ensures { result ≡ bad_cell self.entry.kind self.entry.bytes.now pair }
    {
        match (self.kind, pair) {
            (Kind::Table, NEXT_STATES) => {
                self.first_bad(pair, |cell| Kind::Table.cell(NEXT_STATES, cell))
            }
            (Kind::Table, _) => self.first_bad(pair, |cell| Kind::Table.cell(OPEN_FLAGS, cell)),
            (Kind::Rules, ENVIRONMENT_ROWS) => {
                self.first_bad(pair, |cell| Kind::Rules.cell(ENVIRONMENT_ROWS, cell))
            }
            (Kind::Rules, ASSUMPTION_ROWS) => {
                self.first_bad(pair, |cell| Kind::Rules.cell(ASSUMPTION_ROWS, cell))
            }
            (Kind::Rules, GUARANTEE_ROWS) => {
                self.first_bad(pair, |cell| Kind::Rules.cell(GUARANTEE_ROWS, cell))
            }
            (Kind::Rules, _) => self.first_bad(pair, |cell| Kind::Rules.cell(START_ROWS, cell)),
        }
    }

    // The offset of the first bad cell of a section, where the closure tells what each cell holds.
    fn first_bad<F: Fn(usize) -> Cell>(self, pair: u8, held: F) -> Option<usize>
        requires callable { F.IsAlwaysCallable held }
        requires told { (n : ℕ) (cell : Cell) → F.post held n cell → cell ≡ cell_of self.kind pair n }
        ensures { result ≡ bad_cell self.entry.kind self.entry.bytes.now pair }
    {
        let width = self.kind.width(pair);
        let section = Section::read(self.bytes, pair);
        let bounds = Bounds::read(self.bytes);
        for cell in 0..section.size / width {
            let at = section.offset + width * cell;
            if held(cell).is_bad(&bounds, at) {
                return Some(at);
            }
        }
        None
    }
}

// The offset of header number `h` after the kind.
fn number_offset(h: usize) -> usize
    requires { h < 5 }
    ensures { result ≡ number_offset h }
{
    2 + 2 * h
}

// How many bytes the section of a pair of a table must have.
fn table_size(bytes: &[u8], pair: u8) -> usize
    ensures { result ≡ slice_index (table_sizes bytes.now) pair }
{
    let states = usize::from(number(bytes, STATES));
    let inputs = usize::from(number(bytes, INPUTS));
    let replies = usize::from(number(bytes, REPLIES));
    match pair {
        OPEN_FLAGS => states * inputs,
        NEXT_STATES => states * inputs * replies * 2,
        ASSUMPTIONS => usize::from(number(bytes, ASSUMPTION_SETS)) * states,
        GUARANTEES => usize::from(number(bytes, GUARANTEE_SETS)) * states,
        STARTS => states,
        _ => 0,
    }
}
