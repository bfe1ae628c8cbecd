use crate::changes::{changed, check_cut, check_refused};
use image::{Kind, Refusal, judge};
use table::worked_image;

#[test]
fn the_worked_image_is_a_table(rt: HostRuntime) {
    assert_eq!(rt; judge(&worked_image()), Ok(Kind::Table));
}

#[test]
fn header_numbers_out_of_range_are_refused(rt: HostRuntime) {
    check_refused(
        &rt,
        worked_image(),
        &[
            (0, 0, Refusal::Header(0)),
            (0, 3, Refusal::Header(0)),
            (1, 1, Refusal::Header(0)),
            (2, 0, Refusal::Header(2)),
            (3, 4, Refusal::Header(2)),
            (4, 0, Refusal::Header(4)),
            (4, 65, Refusal::Header(4)),
            (6, 0, Refusal::Header(6)),
            (6, 65, Refusal::Header(6)),
            (7, 1, Refusal::Header(6)),
            (8, 0, Refusal::Header(8)),
            (8, 9, Refusal::Header(8)),
            (10, 0, Refusal::Header(10)),
            (10, 9, Refusal::Header(10)),
            (11, 1, Refusal::Header(10)),
        ],
    );
}

#[test]
fn pairs_out_of_order_or_past_the_image_are_refused(rt: HostRuntime) {
    check_refused(
        &rt,
        worked_image(),
        &[
            (0x0c, 0x1f, Refusal::Pair(0)),
            (0x0d, 0x01, Refusal::Pair(0)),
            (0x10, 0x21, Refusal::Pair(1)),
            (0x12, 0x09, Refusal::Pair(2)),
            (0x14, 0x29, Refusal::Pair(2)),
            (0x18, 0x2b, Refusal::Pair(3)),
            (0x1c, 0x2d, Refusal::Pair(4)),
            (0x1c, 0x2f, Refusal::Pair(4)),
            (0x1e, 0x03, Refusal::Pair(4)),
        ],
    );
}

#[test]
fn sections_of_another_length_are_refused(rt: HostRuntime) {
    check_refused(
        &rt,
        worked_image(),
        &[
            (0x0e, 1, Refusal::Section(0)),
            (0x12, 7, Refusal::Section(1)),
            (0x16, 1, Refusal::Section(2)),
            (0x1a, 0, Refusal::Section(3)),
            (0x1e, 1, Refusal::Section(4)),
        ],
    );
}

#[test]
fn an_empty_section_may_stand_at_the_end_and_not_beyond(rt: HostRuntime) {
    let mut image = changed(&rt, worked_image(), 0x1e, 0);
    image[0x1c] = 48;
    assert_eq!(rt; judge(&image), Err(Refusal::Section(4)));
    image[0x1c] = 49;
    assert_eq!(rt; judge(&image), Err(Refusal::Pair(4)));
}

#[test]
fn values_that_are_not_allowed_are_refused(rt: HostRuntime) {
    check_refused(
        &rt,
        worked_image(),
        &[
            (0x20, 2, Refusal::Value(0x20)),
            (0x21, 255, Refusal::Value(0x21)),
            (0x22, 2, Refusal::Value(0x22)),
            (0x23, 1, Refusal::Value(0x22)),
            (0x29, 255, Refusal::Value(0x28)),
            (0x2a, 2, Refusal::Value(0x2a)),
            (0x2d, 2, Refusal::Value(0x2d)),
            (0x2f, 3, Refusal::Value(0x2f)),
        ],
    );
}

#[test]
fn images_cut_short_are_refused(rt: HostRuntime) {
    check_cut(&rt, &worked_image(), [0x22, 0x2a, 0x2c, 0x2e, 0x30]);
}
