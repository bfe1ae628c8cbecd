use arena::{Arena, Moves};
use opened::Image;
use table::worked_image;

#[test]
fn the_worked_image_answers_as_its_game(rt: HostRuntime) {
    let bytes = worked_image();
    let table = Image::open(&bytes);
    assert_eq!(rt; table.states(), 2);
    assert_eq!(rt; table.inputs(), 1);
    assert_eq!(rt; table.replies(), 2);
    assert_eq!(rt; table.assumptions(), 1);
    assert_eq!(rt; table.guarantees(), 1);
    for state in 0..2 {
        assert!(rt; table.is_open(state, 0));
        assert!(rt; table.in_assumption(0, state));
        assert_eq!(rt; table.in_guarantee(0, state), state == 1);
        assert_eq!(rt; table.is_start(state), state == 0);
        assert_eq!(rt; table.leads(state, 0, 0), Some(0));
        assert_eq!(rt; table.leads(state, 0, 1), Some(1));
    }
}

// Four states, three inputs, two replies, one assumption set and five guarantee sets, with a gap before each section.
const UNEVEN_IMAGE: &[u8] = b"\x01\0\x04\0\x03\0\x02\0\x01\0\x05\0\
    \x21\0\x0c\0\x2e\0\x30\0\x5f\0\x04\0\x64\0\x14\0\x79\0\x04\0\
    \xff\x01\0\x01\0\x01\0\x01\0\x01\0\x01\0\
    \xff\0\0\x03\0\x02\0\0\0\xff\xff\x02\0\x01\0\xff\xff\x03\0\x01\0\0\0\x03\0\x02\0\0\0\xff\xff\x02\0\x01\0\xff\xff\x03\0\x01\0\0\0\x03\0\x02\0\0\0\
    \xff\0\x01\0\x01\
    \xff\x01\0\0\x01\0\0\x01\0\0\x01\0\0\x01\0\0\x01\0\0\x01\0\
    \xff\0\0\x01\x01";

#[test]
fn each_section_is_read_by_its_own_rows_and_columns(rt: HostRuntime) {
    let table = Image::open(UNEVEN_IMAGE);
    assert_eq!(rt; table.assumptions(), 1);
    assert_eq!(rt; table.guarantees(), 5);
    for q in 0..4u16 {
        assert_eq!(rt; table.in_assumption(0, q), q % 2 == 1);
        assert_eq!(rt; table.is_start(q), q >= 2);
        for j in 0..5 {
            assert_eq!(rt; table.in_guarantee(j, q), (j + q) % 3 == 0);
        }
    }
}

#[test]
fn moves_are_read_by_state_input_and_reply(rt: HostRuntime) {
    let table = Image::open(UNEVEN_IMAGE);
    for q in 0..4u16 {
        for x in 0..3u16 {
            assert_eq!(rt; table.is_open(q, x), (q + x) % 2 == 0);
            for y in 0..2u16 {
                let next = match (q + 2 * x + 3 * y) % 5 {
                    4 => None,
                    p => Some(p),
                };
                assert_eq!(rt; table.leads(q, x, y), next);
            }
        }
    }
}

#[test]
fn nothing_is_outside_the_game(rt: HostRuntime) {
    let bytes = worked_image();
    let table = Image::open(&bytes);
    assert!(rt; !table.is_open(0, 1));
    assert_eq!(rt; table.leads(0, 1, 0), None);
    assert!(rt; !table.in_assumption(1, 0) && !table.in_guarantee(1, 1));
    for number in [2, 3, 255, 256, 1024, 65535] {
        assert!(rt; !table.is_open(number, 0));
        assert!(rt; !table.is_open(0, number));
        assert_eq!(rt; table.leads(number, 0, 0), None);
        assert_eq!(rt; table.leads(0, number, 0), None);
        assert_eq!(rt; table.leads(0, 0, number), None);
        assert!(rt; !table.in_assumption(number, 0) && !table.in_assumption(0, number));
        assert!(rt; !table.in_guarantee(number, 1) && !table.in_guarantee(0, number));
        assert!(rt; !table.is_start(number));
    }
}

#[test]
fn refused_bytes_open_as_the_built_in_table(rt: HostRuntime) {
    let bytes = worked_image();
    let table = Image::open(&bytes[..47]);
    assert_eq!(rt; table.states(), 1);
    assert_eq!(rt; table.inputs(), 1);
    assert_eq!(rt; table.replies(), 1);
    assert_eq!(rt; table.assumptions(), 1);
    assert_eq!(rt; table.guarantees(), 1);
    assert!(rt; !table.is_open(0, 0));
    assert_eq!(rt; table.leads(0, 0, 0), Some(0));
    assert!(rt; !table.in_assumption(0, 0) && !table.in_guarantee(0, 0) && !table.is_start(0));
}
