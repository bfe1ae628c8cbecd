ghost use Rattle.std.specs.Prelude.{◌≡◌, ◌^◌, not, nat_lt};
ghost use Rattle.image.specs.Format.{states_of, state_bits_of, input_bits_of, assumptions_of, guarantees_of, value_at, allowed};

use crate::bytes::{ASSUMPTION_SETS, GUARANTEE_SETS, INPUT_BITS, STATES, byte, number, state_bits};
use crate::kind::BARRED;

// What a cell holds.
#[derive(Clone, Copy)]
pub(crate) enum Cell {
    // Yes or no, in a byte.
    Flag,
    // Where a reply leads.
    Target,
    // Some of the signals of a state.
    Mask,
    // Some of the input signals.
    InputMask,
    // The number of an assumption set.
    AssumptionSet,
    // The number of a guarantee set.
    GuaranteeSet,
}

// The bytes of an image, with the numbers of the header that bound what cells may hold, each read once for all cells of a section.
#[derive(Clone, Copy)]
pub(crate) struct Bounds<'a> {
    bytes: &'a [u8],
    states: u16,
    state_bits: u32,
    input_bits: u32,
    assumption_sets: u16,
    guarantee_sets: u16,
    ghost states_read: { states ≡ states_of bytes.now },
    ghost state_bits_read: { state_bits ≡ state_bits_of bytes.now },
    ghost input_bits_read: { input_bits ≡ input_bits_of bytes.now },
    ghost assumption_sets_read: { assumption_sets ≡ assumptions_of bytes.now },
    ghost guarantee_sets_read: { guarantee_sets ≡ guarantees_of bytes.now },
}

impl<'a> Bounds<'a> {
    // The bounds that stand in the header.
    pub(crate) fn read(bytes: &'a [u8]) -> Bounds<'a>
        ensures { result.bytes.now ≡ bytes.now }
    {
        Bounds {
            bytes,
            states: number(bytes, STATES),
            state_bits: state_bits(bytes),
            input_bits: u32::from(number(bytes, INPUT_BITS)),
            assumption_sets: number(bytes, ASSUMPTION_SETS),
            guarantee_sets: number(bytes, GUARANTEE_SETS),
        }
    }
}

// The three functions are inlined into each walk over cells: a walk knows what its cells hold, and so does not ask at each.
impl Cell {
    // Whether the cell at an offset holds what it may not.
    #[inline(always)]
    pub(crate) fn is_bad(self, bounds: &Bounds, at: usize) -> bool
        ensures { result ≡ not (allowed self bounds.now.bytes.now (value_at self bounds.now.bytes.now at)) }
    {
        !self.allows(bounds, self.value(bounds.bytes, at))
    }

    // What stands in the cell at an offset.
    #[inline(always)]
    fn value(self, bytes: &[u8], at: usize) -> u16
        ensures { result ≡ value_at self bytes.now at }
    {
        match self {
            Cell::Flag => u16::from(byte(bytes, at)),
            _ => number(bytes, at),
        }
    }

    // Whether the cell may hold the value.
    #[inline(always)]
    fn allows(self, bounds: &Bounds, value: u16) -> bool
        ensures { result ≡ allowed self bounds.now.bytes.now value }
    {
        match self {
            Cell::Flag => value <= 1,
            Cell::Target => value < bounds.states || value == BARRED,
            Cell::Mask => has_only_bits(value, bounds.state_bits),
            Cell::InputMask => has_only_bits(value, bounds.input_bits),
            Cell::AssumptionSet => value < bounds.assumption_sets,
            Cell::GuaranteeSet => value < bounds.guarantee_sets,
        }
    }
}

// Whether a mask has only bits below this one.
fn has_only_bits(mask: u16, bits: u32) -> bool
    ensures { result ≡ nat_lt mask (2 ^ bits) }
{
    bits >= 16 || mask >> bits == 0
}
