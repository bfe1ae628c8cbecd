ghost use Rattle.std.specs.Prelude.{◌≡◌, ◌+◌, ◌^◌, ◌<◌, ◌≤◌};
ghost use Rattle.image.specs.Bytes.{number_at};
ghost use Rattle.rules.specs.Rows.{step_holds, member_holds, start_holds};
ghost use Rattle.rules.specs.Signals.{masks_hold};

use image::number;

// A row of an image of rules, by the offset at which it begins. The bound is far above any offset of an image, and so small that no
// sum in a row wraps.
#[derive(Clone, Copy)]
pub(crate) struct Row<'a> {
    bytes: &'a [u8],
    at: usize,
    ghost in_range: { at < 2 ^ 20 },
}

impl<'a> Row<'a> {
    // The row at an offset.
    pub(crate) fn new(bytes: &'a [u8], at: usize) -> Row<'a>
        requires { at < 2 ^ 20 }
        ensures { (result.bytes.now ≡ bytes.now) × (result.at ≡ at) }
    {
        Row { bytes, at }
    }

    // Whether a row of moves holds at a step from the current to the next state.
    pub(crate) fn holds_at_step(self, current: u16, next: u16) -> bool
        ensures { result ≡ step_holds current next self.entry.bytes.now self.entry.at }
    {
        self.masks(0).hold_at(current) || self.masks(4).hold_at(next)
    }

    // Whether a row of sets holds for a set at a state: it asks nothing of other sets.
    pub(crate) fn holds_in_set(self, set: u16, state: u16) -> bool
        ensures { result ≡ member_holds set state self.entry.bytes.now self.entry.at }
    {
        number(self.bytes, self.at) != set || self.masks(2).hold_at(state)
    }

    // Whether a row of starts holds at a state.
    pub(crate) fn holds_at(self, state: u16) -> bool
        ensures { result ≡ start_holds state self.entry.bytes.now self.entry.at }
    {
        self.masks(0).hold_at(state)
    }

    // The masks that stand this many bytes into the row.
    fn masks(self, place: usize) -> Masks
        requires { place ≤ 4 }
        ensures on { result.on ≡ number_at self.entry.bytes.now (self.entry.at + place) }
        ensures off { result.off ≡ number_at self.entry.bytes.now (self.entry.at + place + 2) }
    {
        let at = self.at + place;
        Masks {
            on: number(self.bytes, at),
            off: number(self.bytes, at + 2),
        }
    }
}

// A true mask and a false mask: at a state they ask for a signal of `on` that is on, or for a signal of `off` that is off.
#[derive(Clone, Copy)]
struct Masks {
    on: u16,
    off: u16,
}

impl Masks {
    // Whether the masks hold at a state; both are tested, without a branch.
    #[tactic(auto, using(crate::proofs::Masking::masks_by_and))]
    fn hold_at(self, state: u16) -> bool
        ensures { result ≡ masks_hold self.on self.off state }
    {
        let on = self.on & state;
        let off = self.off & state;
        (on != 0) | (off != self.off)
    }
}
