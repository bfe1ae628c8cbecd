//! Reads one image from standard input, and prints who wins each state and whether the game is realizable.
#![tactic(auto)]

use image::GREATEST_LENGTH;
use std::io::Read;
use verdict::{answer_image, answer_text};

fn main(rt: HostRuntime) -> anyhow::Result<()> {
    let heap = rt.alloc();
    let mut bytes = Vec::new(heap);
    // one byte more than an image may have, so that a longer one is refused and not cut
    rt.stdin()
        .take(GREATEST_LENGTH as u64 + 1)
        .read_to_end(&mut bytes)?;
    let answer = answer_image(heap, &bytes)?;
    rt.print(answer_text(heap, &answer)?)?;
    Ok(())
}
