ghost use Rattle.std.specs.Prelude.{◌≡◌, ◌+◌, ◌*◌, ◌^◌, ◌<◌, true, ◌&&◌, cond, Some, None, IfSome, nat_lt, slice_index};
ghost use Rattle.image.specs.Format.{states_of, inputs_of, table_sizes};
ghost use Rattle.image.specs.Opening.{bytes_as};
ghost use Rattle.table.specs.Tables.{is_table, table_moves, table_goals, flag_at};
ghost use Rattle.table.specs.Tabling.{table_moves_lawful, table_goals_lawful};

use arena::{Arena, Moves};
use image::{
    ASSUMPTION_SETS, ASSUMPTIONS, BARRED, GUARANTEE_SETS, GUARANTEES, INPUTS, Judged, Kind,
    NEXT_STATES, OPEN_FLAGS, REPLIES, STARTS, STATES, Section, number,
};

/// A game that a table spells. Every question reads the caller's bytes.
#[derive(Clone, Copy, PartialEq, Eq, Debug)]
pub struct Table<'a> {
    bytes: &'a [u8],
    ghost lawful: { is_table bytes.now ≡ true },
}

impl<'a> Table<'a> {
    /// The table of an image, or the built-in table where the image is of another kind.
    pub fn of(image: Judged<'a>) -> Table<'a>
        ensures { result.bytes.now ≡ bytes_as Kind.Table image.entry.kind image.entry.bytes.now }
    {
        Table {
            bytes: image.bytes_as(Kind::Table),
        }
    }

    // A state beside the count of states.
    fn state(&self, state: u16) -> Index
        ensures { (result.value ≡ state) × (result.count ≡ states_of self.now.bytes.now) }
    {
        Index::new(state, self.states())
    }

    // An input beside the count of inputs.
    fn input(&self, input: u16) -> Index
        ensures { (result.value ≡ input) × (result.count ≡ inputs_of self.now.bytes.now) }
    {
        Index::new(input, self.inputs())
    }

    // Whether the flag of a section at this row and column says yes; outside its rows and columns there is none.
    #[tactic(auto, using(crate::specs::Tabling::table_flag_inside))]
    fn flag(&self, pair: u8, row: Index, column: Index) -> bool
        requires section { pair < 5 }
        requires cells { slice_index (table_sizes self.now.bytes.now) pair ≡ row.count * column.count }
        ensures { result ≡ (nat_lt row.value row.count && (nat_lt column.value column.count
            && flag_at self.now.bytes.now pair (row.value * column.count + column.value))) }
    {
        if let Some(row) = row.cell_in(0)
            && let Some(cell) = column.cell_in(row)
        {
            let at = Section::read(self.bytes, pair).offset + cell;
            self.bytes[at] == 1
        } else {
            false
        }
    }
}

// A number, and how many there are of its kind.
#[derive(Clone, Copy)]
struct Index {
    value: u16,
    count: u16,
}

impl Index {
    // A number beside its count; it need not be below it.
    fn new(value: u16, count: u16) -> Index
        ensures { (result.value ≡ value) × (result.count ≡ count) }
    {
        Index { value, count }
    }

    // The cell in this column of a row, where each row has as many columns as there are such numbers and cells are counted through
    // all rows; past the last column there is none. A number by itself is a cell of row 0.
    fn cell_in(self, row: usize) -> Option<usize>
        requires { row < 2 ^ 32 }
        ensures small { IfSome result (λ cell. cell < 2 ^ 48) }
        ensures value { result
            ≡ cond (nat_lt self.value self.count) (Some (row * self.count + self.value)) None }
    {
        (self.value < self.count).then(|| row * usize::from(self.count) + usize::from(self.value))
    }
}

impl Moves for Table<'_> {
    ghost moves = { λ t. table_moves t.bytes.now };

    fn states(&self) -> u16 {
        number(self.bytes, STATES)
    }

    fn inputs(&self) -> u16 {
        number(self.bytes, INPUTS)
    }

    fn replies(&self) -> u16 {
        number(self.bytes, REPLIES)
    }

    fn is_open(&self, state: u16, input: u16) -> bool {
        self.flag(OPEN_FLAGS, self.state(state), self.input(input))
    }

    fn leads(&self, state: u16, input: u16, reply: u16) -> Option<u16> {
        let state = self.state(state).cell_in(0)?;
        let choice = self.input(input).cell_in(state)?;
        let cell = Index::new(reply, self.replies()).cell_in(choice)?;
        let at = Section::read(self.bytes, NEXT_STATES).offset + 2 * cell;
        match number(self.bytes, at) {
            BARRED => None,
            next => Some(next),
        }
    }

    ghost lawful = { λ t. table_moves_lawful t.bytes.now t.lawful };
}

impl Arena for Table<'_> {
    ghost goals = { λ t. table_goals t.bytes.now };

    fn assumptions(&self) -> u16 {
        number(self.bytes, ASSUMPTION_SETS)
    }

    fn guarantees(&self) -> u16 {
        number(self.bytes, GUARANTEE_SETS)
    }

    fn in_assumption(&self, set: u16, state: u16) -> bool {
        let set = Index::new(set, self.assumptions());
        self.flag(ASSUMPTIONS, set, self.state(state))
    }

    fn in_guarantee(&self, set: u16, state: u16) -> bool {
        let set = Index::new(set, self.guarantees());
        self.flag(GUARANTEES, set, self.state(state))
    }

    fn is_start(&self, state: u16) -> bool {
        self.flag(STARTS, Index::new(0, 1), self.state(state))
    }

    ghost lawful = { λ t. table_goals_lawful t.bytes.now t.lawful };
}
