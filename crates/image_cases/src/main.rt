//! Answers each image of `data/` that `cases.txt` names, and compares the text with the one beside it, which was known beforehand
//! or printed by an independent solver.
#![tactic(auto)]

use std::fs;
use verdict::{answer_image, answer_text};

fn main(rt: HostRuntime) -> anyhow::Result<()> {
    let names = fs::read_to_string(&rt, "cases.txt")?;
    let mut agreeing: u32 = 0;
    for name in names.lines() {
        if agrees(&rt, name)? {
            agreeing = agreeing.saturating_add(1);
        } else {
            println!(rt; "{name} differs")?;
        }
    }
    println!(rt; "{agreeing} agree")?;
    Ok(())
}

// Whether the answer to the image of this name has the text that is expected.
fn agrees(rt: &HostRuntime, name: &str) -> anyhow::Result<bool> {
    let heap = rt.alloc();
    let image = fs::read(rt, format!(in heap; "{name}.image")?)?;
    let expected = fs::read(rt, format!(in heap; "{name}.text")?)?;
    let text = answer_text(heap, &answer_image(heap, &image)?)?;
    Ok(text.as_bytes() == expected.as_slice())
}
