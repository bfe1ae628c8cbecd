use crate::changes::{changed, check_cut, check_granted, check_refused};
use image::{Kind, Refusal, judge};
use rules::worked_image;

#[test]
fn the_worked_image_is_rules(rt: HostRuntime) {
    assert_eq!(rt; judge(&worked_image()), Ok(Kind::Rules));
}

#[test]
fn header_numbers_out_of_range_are_refused(rt: HostRuntime) {
    check_refused(
        &rt,
        worked_image(),
        &[
            (0, 3, Refusal::Header(0)),
            (1, 1, Refusal::Header(0)),
            (2, 0, Refusal::Header(2)),
            (2, 7, Refusal::Header(2)),
            (3, 1, Refusal::Header(2)),
            (4, 0, Refusal::Header(4)),
            (4, 7, Refusal::Header(4)),
            (5, 1, Refusal::Header(4)),
            (6, 1, Refusal::Header(6)),
            (7, 1, Refusal::Header(6)),
            (8, 0, Refusal::Header(8)),
            (8, 9, Refusal::Header(8)),
            (10, 0, Refusal::Header(10)),
            (10, 9, Refusal::Header(10)),
        ],
    );
}

#[test]
fn more_than_ten_bits_count_against_the_output(rt: HostRuntime) {
    for (inputs, outputs) in [(6, 4), (4, 6), (5, 5), (1, 6), (6, 1)] {
        let mut image = changed(&rt, worked_image(), 2, inputs);
        image[4] = outputs;
        assert_eq!(rt; judge(&image), Ok(Kind::Rules));
    }
    for (inputs, outputs) in [(6, 5), (5, 6), (6, 6)] {
        let mut image = changed(&rt, worked_image(), 2, inputs);
        image[4] = outputs;
        assert_eq!(rt; judge(&image), Err(Refusal::Header(4)));
    }
}

#[test]
fn pairs_out_of_order_or_past_the_image_are_refused(rt: HostRuntime) {
    check_refused(
        &rt,
        worked_image(),
        &[
            (0x0c, 0x1f, Refusal::Pair(0)),
            (0x0d, 0x01, Refusal::Pair(0)),
            (0x10, 0x27, Refusal::Pair(1)),
            (0x12, 0x09, Refusal::Pair(2)),
            (0x14, 0x2f, Refusal::Pair(2)),
            (0x18, 0x35, Refusal::Pair(3)),
            (0x1c, 0x3b, Refusal::Pair(4)),
            (0x1c, 0x3d, Refusal::Pair(4)),
            (0x1e, 0x09, Refusal::Pair(4)),
        ],
    );
}

#[test]
fn sections_that_are_no_whole_rows_are_refused(rt: HostRuntime) {
    check_refused(
        &rt,
        worked_image(),
        &[
            (0x0e, 7, Refusal::Section(0)),
            (0x0e, 4, Refusal::Section(0)),
            (0x12, 6, Refusal::Section(1)),
            (0x16, 4, Refusal::Section(2)),
            (0x1a, 3, Refusal::Section(3)),
            (0x1e, 6, Refusal::Section(4)),
            (0x1e, 1, Refusal::Section(4)),
        ],
    );
}

#[test]
fn sections_may_have_any_number_of_rows(rt: HostRuntime) {
    check_granted(
        &rt,
        worked_image(),
        Kind::Rules,
        &[
            (0x0e, 0),
            (0x12, 0),
            (0x16, 0),
            (0x1a, 0),
            (0x1e, 0),
            (0x1e, 4),
        ],
    );
}

#[test]
fn values_that_are_not_allowed_are_refused(rt: HostRuntime) {
    check_refused(
        &rt,
        worked_image(),
        &[
            (0x20, 4, Refusal::Value(0x20)),
            (0x21, 1, Refusal::Value(0x20)),
            (0x22, 5, Refusal::Value(0x22)),
            (0x24, 2, Refusal::Value(0x24)),
            (0x26, 3, Refusal::Value(0x26)),
            (0x27, 1, Refusal::Value(0x26)),
            (0x28, 4, Refusal::Value(0x28)),
            (0x2e, 255, Refusal::Value(0x2e)),
            (0x30, 1, Refusal::Value(0x30)),
            (0x31, 1, Refusal::Value(0x30)),
            (0x32, 4, Refusal::Value(0x32)),
            (0x34, 4, Refusal::Value(0x34)),
            (0x36, 1, Refusal::Value(0x36)),
            (0x38, 4, Refusal::Value(0x38)),
            (0x3c, 4, Refusal::Value(0x3c)),
            (0x42, 6, Refusal::Value(0x42)),
        ],
    );
}

#[test]
fn set_numbers_are_below_their_own_count(rt: HostRuntime) {
    let image = changed(&rt, worked_image(), 8, 2);
    check_granted(&rt, image, Kind::Rules, &[(0x30, 1)]);
    check_refused(
        &rt,
        image,
        &[
            (0x30, 2, Refusal::Value(0x30)),
            (0x36, 1, Refusal::Value(0x36)),
        ],
    );
    let image = changed(&rt, worked_image(), 10, 2);
    check_granted(&rt, image, Kind::Rules, &[(0x36, 1)]);
    check_refused(&rt, image, &[(0x30, 1, Refusal::Value(0x30))]);
}

#[test]
fn masks_may_name_any_signal_that_there_is(rt: HostRuntime) {
    check_granted(
        &rt,
        worked_image(),
        Kind::Rules,
        &[
            (0x20, 3),
            (0x22, 3),
            (0x24, 1),
            (0x2a, 3),
            (0x2c, 3),
            (0x34, 3),
            (0x3c, 3),
        ],
    );
}

#[test]
fn the_first_bad_field_is_told(rt: HostRuntime) {
    let mut image = changed(&rt, worked_image(), 0x3c, 4);
    assert_eq!(rt; judge(&image), Err(Refusal::Value(0x3c)));
    image[0x34] = 4;
    assert_eq!(rt; judge(&image), Err(Refusal::Value(0x34)));
    image[0x30] = 1;
    assert_eq!(rt; judge(&image), Err(Refusal::Value(0x30)));
    image[0x26] = 2;
    assert_eq!(rt; judge(&image), Err(Refusal::Value(0x26)));
    image[0x1a] = 5;
    assert_eq!(rt; judge(&image), Err(Refusal::Section(3)));
}

#[test]
fn images_cut_short_are_refused(rt: HostRuntime) {
    check_cut(&rt, &worked_image(), [0x28, 0x30, 0x36, 0x3c, 0x44]);
}
