//! What refusals are printed as.
use machine::{CueRefusal, FillRefusal};
use std::alloc::Global;
use std::fmt::Display;
use std::process::Abort;
use std::test::Fail;

// Expects a refusal to be printed as this text, in a wide field too.
fn is_printed(
    rt: &impl Abort,
    alloc: Global,
    refusal: &impl Display,
    text: &str,
) -> Result<(), Fail> {
    assert_eq!(rt; format!(in alloc; "{refusal}")?.as_str(), text);
    assert_eq!(rt; format!(in alloc; "{refusal:>60}")?.as_str(), text);
    Ok(())
}

#[test]
fn refusals_of_a_table_are_printed(rt: HostRuntime) -> Result<(), Fail> {
    let texts = [
        (FillRefusal::StateCount, "the state count is not 1 to 64"),
        (FillRefusal::CueCount, "the cue count is not 1 to 32"),
        (
            FillRefusal::Length,
            "there is not one byte for each state and cue",
        ),
        (
            FillRefusal::NoSuchState,
            "a byte or a closing bit names no state",
        ),
    ];
    for (refusal, text) in &texts {
        is_printed(&rt, rt.alloc(), refusal, text)?;
    }
    Ok(())
}

#[test]
fn refusals_of_a_cue_are_printed(rt: HostRuntime) -> Result<(), Fail> {
    let alloc = rt.alloc();
    is_printed(
        &rt,
        alloc,
        &CueRefusal::NoSuchCue,
        "the number is not below the cue count",
    )?;
    is_printed(&rt, alloc, &CueRefusal::ShowFull, "10,000 cues are taken")
}
