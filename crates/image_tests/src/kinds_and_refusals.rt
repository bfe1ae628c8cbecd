use image::{Kind, Refusal, UnknownKind};
use std::alloc::AllocError;

#[test]
fn numbers_name_the_two_kinds(rt: HostRuntime) {
    assert_eq!(rt; Kind::try_from(1u16), Ok(Kind::Table));
    assert_eq!(rt; Kind::try_from(2u16), Ok(Kind::Rules));
    for number in [0u16, 3, 256, 257, 65535] {
        assert_eq!(rt; Kind::try_from(number), Err(UnknownKind));
    }
}

#[test]
fn an_unknown_kind_is_refused_at_offset_0(rt: HostRuntime) {
    assert_eq!(rt; Refusal::from(UnknownKind), Refusal::Header(0));
}

#[test]
fn an_unknown_kind_says_so(rt: HostRuntime) -> Result<(), AllocError> {
    assert_eq!(rt;
        UnknownKind.to_string(rt.alloc())?.as_str(),
        "the number names no kind of image"
    );
    Ok(())
}

#[test]
fn refusals_print_their_number_and_their_value(rt: HostRuntime) -> Result<(), AllocError> {
    for (refusal, text) in [
        (Refusal::Length, "1"),
        (Refusal::Header(10), "2 10"),
        (Refusal::Pair(4), "3 4"),
        (Refusal::Section(0), "4 0"),
        (Refusal::Value(65534), "5 65534"),
    ] {
        assert_eq!(rt; refusal.to_string(rt.alloc())?.as_str(), text);
    }
    Ok(())
}
