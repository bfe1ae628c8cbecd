ghost use Rattle.std.specs.Prelude.{◌<◌};

use arena::{Arena, Moves};
use opened::Image;
use rules::worked_image;

#[test]
fn the_worked_image_answers_as_its_game(rt: HostRuntime) {
    let bytes = worked_image();
    let rules = Image::open(&bytes);
    assert_eq!(rt; rules.states(), 4);
    assert_eq!(rt; rules.inputs(), 2);
    assert_eq!(rt; rules.replies(), 2);
    assert_eq!(rt; rules.assumptions(), 1);
    assert_eq!(rt; rules.guarantees(), 1);
    for state in 0..4u16 {
        assert!(rt; rules.is_open(state, 0));
        assert_eq!(rt; rules.is_open(state, 1), state % 2 == 0);
        assert_eq!(rt; rules.in_assumption(0, state), state % 2 == 1);
        assert_eq!(rt; rules.in_guarantee(0, state), state >= 2);
        assert_eq!(rt; rules.is_start(state), state == 0);
        for input in 0..2u16 {
            assert_eq!(rt; rules.leads(state, input, 0), Some(input));
            let powered = (state < 2).then_some(input + 2);
            assert_eq!(rt; rules.leads(state, input, 1), powered);
        }
    }
}

// One signal on each side, and a controller row: the output is off now or off next.
const ONE_CONTROLLER_ROW: &[u8] = b"\x02\0\x01\0\x01\0\0\0\x01\0\x01\0\
    \x20\0\0\0\x20\0\x08\0\x28\0\0\0\x28\0\0\0\x28\0\0\0\
    \0\0\x02\0\0\0\x02\0";

#[test]
fn a_controller_row_bars_what_it_forbids(rt: HostRuntime) {
    let rules = Image::open(ONE_CONTROLLER_ROW);
    assert_eq!(rt; rules.leads(2, 0, 1), None);
    assert_eq!(rt; rules.leads(3, 1, 1), None);
    assert_eq!(rt; rules.leads(0, 1, 1), Some(3));
    assert_eq!(rt; rules.leads(2, 1, 0), Some(1));
}

// Two input signals, one output signal, two sets of each kind, and no row.
const NO_ROWS: &[u8] = b"\x02\0\x02\0\x01\0\0\0\x02\0\x02\0\
    \x20\0\0\0\x20\0\0\0\x20\0\0\0\x20\0\0\0\x20\0\0\0";

#[test]
fn without_rows_everything_is_allowed_and_in_every_set(rt: HostRuntime) {
    let rules = Image::open(NO_ROWS);
    assert_eq!(rt; rules.states(), 8);
    assert_eq!(rt; rules.inputs(), 4);
    assert_eq!(rt; rules.replies(), 2);
    for state in 0..8 {
        for set in 0..2 {
            assert!(rt; rules.in_assumption(set, state) && rules.in_guarantee(set, state));
        }
        assert!(rt; rules.is_start(state));
        for input in 0..4u16 {
            assert!(rt; rules.is_open(state, input));
            for reply in 0..2u16 {
                assert_eq!(rt; rules.leads(state, input, reply), Some(input + 4 * reply));
            }
        }
    }
}

// Two environment rows that no input meets together: the input is on next, and it is off next.
const CLOSING_ROWS: &[u8] = b"\x02\0\x01\0\x01\0\0\0\x01\0\x01\0\
    \x20\0\x10\0\x30\0\0\0\x30\0\0\0\x30\0\0\0\x30\0\0\0\
    \0\0\0\0\x01\0\0\0\
    \0\0\0\0\0\0\x01\0";

#[test]
fn rows_can_close_every_input_and_leave_the_replies(rt: HostRuntime) {
    let rules = Image::open(CLOSING_ROWS);
    for state in 0..4 {
        for input in 0..2u16 {
            assert!(rt; !rules.is_open(state, input));
            assert_eq!(rt; rules.leads(state, input, 1), Some(input + 2));
        }
    }
}

// A row of zero masks in each section, that of the assumptions and that of the guarantees for set 1 of two.
const ZERO_MASKS: &[u8] = b"\x02\0\x01\0\x01\0\0\0\x02\0\x02\0\
    \x20\0\x08\0\x28\0\x08\0\x30\0\x06\0\x36\0\x06\0\x3c\0\x04\0\
    \0\0\0\0\0\0\0\0\
    \0\0\0\0\0\0\0\0\
    \x01\0\0\0\0\0\
    \x01\0\0\0\0\0\
    \0\0\0\0";

#[test]
fn a_row_of_zero_masks_never_holds(rt: HostRuntime) {
    let rules = Image::open(ZERO_MASKS);
    for state in 0..4 {
        assert!(rt; rules.in_assumption(0, state) && rules.in_guarantee(0, state));
        assert!(rt; !rules.in_assumption(1, state) && !rules.in_guarantee(1, state));
        assert!(rt; !rules.is_start(state));
        for input in 0..2 {
            assert!(rt; !rules.is_open(state, input));
            assert_eq!(rt; rules.leads(state, input, 0), None);
        }
    }
}

// Rows with a signal in both masks, now in one row and next in the other, and in those of the sets and of the starts.
const BOTH_MASKS: &[u8] = b"\x02\0\x01\0\x01\0\0\0\x01\0\x01\0\
    \x20\0\x10\0\x30\0\x10\0\x40\0\x06\0\x46\0\x06\0\x4c\0\x04\0\
    \x01\0\x01\0\0\0\0\0\
    \0\0\0\0\x01\0\x01\0\
    \x02\0\x02\0\0\0\0\0\
    \0\0\0\0\x02\0\x02\0\
    \0\0\x01\0\x01\0\
    \0\0\x02\0\x02\0\
    \x03\0\x03\0";

#[test]
fn a_signal_in_both_masks_always_holds(rt: HostRuntime) {
    let rules = Image::open(BOTH_MASKS);
    for state in 0..4 {
        assert!(rt;
            rules.in_assumption(0, state) && rules.in_guarantee(0, state) && rules.is_start(state)
        );
        for input in 0..2u16 {
            assert!(rt; rules.is_open(state, input));
            assert_eq!(rt; rules.leads(state, input, 1), Some(input + 2));
        }
    }
}

// Two input and two output signals. Environment: input 0 is on now, or output 1 is off now, or input 1 is on next. Controller:
// output 0 is on now, or input 1 is on next, or output 1 is off next. Each set has two rows that must both hold.
const TELLING_ROWS: &[u8] = b"\x02\0\x02\0\x02\0\0\0\x01\0\x01\0\
    \x20\0\x08\0\x28\0\x08\0\x30\0\x0c\0\x3c\0\x0c\0\x48\0\x08\0\
    \x01\0\x08\0\x02\0\0\0\
    \x04\0\0\0\x02\0\x08\0\
    \0\0\x01\0\0\0\
    \0\0\0\0\x08\0\
    \0\0\x02\0\x04\0\
    \0\0\x0c\0\0\0\
    \x05\0\0\0\
    \0\0\x0a\0";

#[test]
fn every_mask_counts(rt: HostRuntime) {
    let rules = Image::open(TELLING_ROWS);
    for q in 0..16u16 {
        assert_eq!(rt; rules.in_assumption(0, q), on(q, 0) && !on(q, 3));
        assert_eq!(rt;
            rules.in_guarantee(0, q),
            (on(q, 1) || !on(q, 2)) && (on(q, 2) || on(q, 3))
        );
        assert_eq!(rt;
            rules.is_start(q),
            (on(q, 0) || on(q, 2)) && (!on(q, 1) || !on(q, 3))
        );
        for x in 0..4u16 {
            assert_eq!(rt; rules.is_open(q, x), on(q, 0) || !on(q, 3) || on(x, 1));
            for y in 0..4u16 {
                let legal = on(q, 2) || on(x, 1) || !on(y, 1);
                assert_eq!(rt; rules.leads(q, x, y), legal.then_some(x + 4 * y));
            }
        }
    }
}

// Whether a signal is on.
fn on(number: u16, signal: u16) -> bool
    requires { signal < 16 }
{
    number >> signal & 1 == 1
}

// Ten signals, six of them inputs, and no row.
const SIX_AND_FOUR: &[u8] = b"\x02\0\x06\0\x04\0\0\0\x08\0\x08\0\
    \x20\0\0\0\x20\0\0\0\x20\0\0\0\x20\0\0\0\x20\0\0\0";

// Ten signals, four of them inputs, and a start row that names the highest.
const FOUR_AND_SIX: &[u8] = b"\x02\0\x04\0\x06\0\0\0\x01\0\x01\0\
    \x20\0\0\0\x20\0\0\0\x20\0\0\0\x20\0\0\0\x20\0\x04\0\
    \0\x02\0\0";

#[test]
fn ten_signals_make_a_thousand_and_twenty_four_states(rt: HostRuntime) {
    let rules = Image::open(SIX_AND_FOUR);
    assert_eq!(rt; rules.states(), 1024);
    assert_eq!(rt; rules.inputs(), 64);
    assert_eq!(rt; rules.replies(), 16);
    assert_eq!(rt; rules.leads(1023, 63, 15), Some(1023));
    assert_eq!(rt; rules.leads(0, 1, 2), Some(129));
    let rules = Image::open(FOUR_AND_SIX);
    assert_eq!(rt; rules.states(), 1024);
    assert_eq!(rt; rules.inputs(), 16);
    assert_eq!(rt; rules.replies(), 64);
    assert_eq!(rt; rules.leads(1023, 15, 63), Some(1023));
    assert_eq!(rt; rules.leads(0, 1, 2), Some(33));
    assert!(rt; !rules.is_start(511) && rules.is_start(512) && rules.is_start(1023));
}

#[test]
fn nothing_is_outside_the_game(rt: HostRuntime) {
    let rules = Image::open(NO_ROWS);
    assert!(rt; !rules.is_open(8, 0) && !rules.is_open(0, 4));
    assert_eq!(rt; rules.leads(8, 0, 0), None);
    assert_eq!(rt; rules.leads(0, 4, 0), None);
    assert_eq!(rt; rules.leads(0, 0, 2), None);
    for number in [8, 9, 255, 256, 1024, 65535] {
        assert!(rt; !rules.is_open(number, 0) && !rules.is_open(0, number));
        assert_eq!(rt; rules.leads(number, 0, 0), None);
        assert_eq!(rt; rules.leads(0, number, 0), None);
        assert_eq!(rt; rules.leads(0, 0, number), None);
        assert!(rt; !rules.in_assumption(number, 0) && !rules.in_assumption(0, number));
        assert!(rt; !rules.in_guarantee(number, 0) && !rules.in_guarantee(0, number));
        assert!(rt; !rules.is_start(number));
    }
    assert!(rt; !rules.in_assumption(2, 0) && !rules.in_guarantee(2, 0));
}
