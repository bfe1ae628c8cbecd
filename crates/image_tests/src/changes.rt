use image::{Kind, Refusal, judge};
use std::process::Abort;

// The image with another byte at an offset, which it must have.
pub(crate) fn changed<const N: usize>(
    rt: &impl Abort,
    mut image: [u8; N],
    at: usize,
    byte: u8,
) -> [u8; N] {
    assert!(rt; at < N);
    image[at] = byte;
    image
}

// With each byte at its offset the image is refused.
pub(crate) fn check_refused<const N: usize>(
    rt: &impl Abort,
    image: [u8; N],
    cases: &[(usize, u8, Refusal)],
) {
    for &(at, byte, refusal) in cases {
        assert_eq!(rt; judge(&changed(rt, image, at, byte)), Err(refusal));
    }
}

// With each byte at its offset the image is one of the kind.
pub(crate) fn check_granted<const N: usize>(
    rt: &impl Abort,
    image: [u8; N],
    kind: Kind,
    cases: &[(usize, u8)],
) {
    for &(at, byte) in cases {
        assert_eq!(rt; judge(&changed(rt, image, at, byte)), Ok(kind));
    }
}

// The image, cut at any length, is refused: for its length, or for the first section that ends past the cut.
pub(crate) fn check_cut(rt: &impl Abort, image: &[u8], ends: [usize; 5]) {
    for length in 0..image.len() {
        let refusal = if length < 32 {
            Refusal::Length
        } else {
            Refusal::Pair(first_above(ends, length))
        };
        assert_eq!(rt; judge(&image[..length]), Err(refusal));
    }
}

// The first of the ends that lies past a length.
fn first_above(ends: [usize; 5], length: usize) -> usize {
    ends.iter()
        .position(|end| *end > length)
        .unwrap_or(ends.len())
}
