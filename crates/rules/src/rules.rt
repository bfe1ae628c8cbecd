ghost use Rattle.std.specs.Prelude.{◌≡◌, ◌*◌, ◌^◌, ◌≤◌, ℕ, Bool, List, true};
ghost use Rattle.image.specs.Opening.{bytes_as};
ghost use Rattle.rules.specs.Games.{is_rules, state_count, input_count, reply_count, rules_moves, rules_goals, InputsAlone};
ghost use Rattle.rules.specs.Rows.{rows_hold};
ghost use Rattle.rules.specs.Ruling.{rules_moves_lawful, rules_goals_lawful};

use crate::row::Row;
use arena::{Arena, Moves};
use image::{
    ASSUMPTION_ROWS, ASSUMPTION_SETS, CONTROLLER_ROWS, ENVIRONMENT_ROWS, GUARANTEE_ROWS,
    GUARANTEE_SETS, INPUT_BITS, Judged, Kind, OUTPUT_BITS, START_ROWS, Section, number, row_width,
};

/// A game that rules over signals spell. Every question reads the caller's bytes.
#[derive(Clone, Copy, PartialEq, Eq, Debug)]
pub struct Rules<'a> {
    bytes: &'a [u8],
    ghost lawful: { is_rules bytes.now ≡ true },
}

impl<'a> Rules<'a> {
    /// The rules of an image, or the built-in rules where the image is of another kind.
    #[tactic(auto, using(crate::proofs::Inputs::rules_inputs_alone))]
    pub fn of(image: Judged<'a>) -> Rules<'a>
        ensures bytes { result.bytes.now ≡ bytes_as Kind.Rules image.entry.kind image.entry.bytes.now }
        ensures alone { InputsAlone result.bytes.now }
    {
        Rules {
            bytes: image.bytes_as(Kind::Rules),
        }
    }

    // The counts, by each of the two header numbers read once.
    #[tactic(auto, using(crate::specs::Ruling::rules_few_signals, crate::specs::Ruling::rules_few_choices))]
    fn counts(&self) -> Counts
        ensures states { result.states ≡ state_count self.now.bytes.now }
        ensures inputs { result.inputs ≡ input_count self.now.bytes.now }
        ensures replies { result.replies ≡ reply_count self.now.bytes.now }
    {
        let input_bits = number(self.bytes, INPUT_BITS);
        let output_bits = number(self.bytes, OUTPUT_BITS);
        Counts {
            states: two_to(input_bits + output_bits),
            inputs: two_to(input_bits),
            replies: two_to(output_bits),
        }
    }

    // Whether the closure says yes to every row of a section; it is asked no further than the first row to which it says no.
    fn every_row<F: Fn(Row) -> bool>(&self, pair: u8, holds: F) -> bool
        requires { F.IsAlwaysCallable holds }
        ensures { (test : List ℕ → ℕ → Bool)
            → ((row : Row) (b : Bool) → F.post holds row b → b ≡ test row.bytes.now row.at)
            → result ≡ rows_hold self.now.bytes.now pair test }
    {
        let section = Section::read(self.bytes, pair);
        let width = row_width(pair);
        (0..section.size / width)
            .map(|row| Row::new(self.bytes, section.offset + width * row))
            .all(holds)
    }
}

// How many states, inputs and replies there are; each state is an input and a reply.
#[derive(Clone, Copy)]
struct Counts {
    states: u16,
    inputs: u16,
    replies: u16,
    ghost in_range: { inputs * replies ≤ 1024 },
}

// How many choices there are of so many signals.
fn two_to(bits: u16) -> u16
    requires { bits ≤ 10 }
    ensures { result ≡ 2 ^ bits }
{
    1 << bits
}

impl Moves for Rules<'_> {
    ghost moves = { λ t. rules_moves t.bytes.now };

    fn states(&self) -> u16 {
        self.counts().states
    }

    fn inputs(&self) -> u16 {
        self.counts().inputs
    }

    fn replies(&self) -> u16 {
        self.counts().replies
    }

    fn is_open(&self, state: u16, input: u16) -> bool {
        let counts = self.counts();
        state < counts.states
            && input < counts.inputs
            && self.every_row(ENVIRONMENT_ROWS, |row| row.holds_at_step(state, input))
    }

    fn leads(&self, state: u16, input: u16, reply: u16) -> Option<u16> {
        let counts = self.counts();
        if state >= counts.states || input >= counts.inputs || reply >= counts.replies {
            return None;
        }
        let next = input + counts.inputs * reply;
        self.every_row(CONTROLLER_ROWS, |row| row.holds_at_step(state, next))
            .then_some(next)
    }

    ghost lawful = { λ t. rules_moves_lawful t.bytes.now t.lawful };
}

impl Arena for Rules<'_> {
    ghost goals = { λ t. rules_goals t.bytes.now };

    fn assumptions(&self) -> u16 {
        number(self.bytes, ASSUMPTION_SETS)
    }

    fn guarantees(&self) -> u16 {
        number(self.bytes, GUARANTEE_SETS)
    }

    fn in_assumption(&self, set: u16, state: u16) -> bool {
        set < self.assumptions()
            && state < self.states()
            && self.every_row(ASSUMPTION_ROWS, |row| row.holds_in_set(set, state))
    }

    fn in_guarantee(&self, set: u16, state: u16) -> bool {
        set < self.guarantees()
            && state < self.states()
            && self.every_row(GUARANTEE_ROWS, |row| row.holds_in_set(set, state))
    }

    fn is_start(&self, state: u16) -> bool {
        state < self.states() && self.every_row(START_ROWS, |row| row.holds_at(state))
    }

    ghost lawful = { λ t. rules_goals_lawful t.bytes.now t.lawful };
}
