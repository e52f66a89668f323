//! What refusals are printed as.
use rules::RuleRefusal;
use std::alloc::Global;
use std::process::Abort;
use std::test::Fail;

// Expects a refusal to be printed as this text, in a wide field too.
fn is_printed(
    rt: &impl Abort,
    alloc: Global,
    refusal: RuleRefusal,
    text: &str,
) -> Result<(), Fail> {
    assert_eq!(rt; format!(in alloc; "{refusal}")?.as_str(), text);
    assert_eq!(rt; format!(in alloc; "{refusal:>60}")?.as_str(), text);
    Ok(())
}

#[test]
fn refusals_are_printed(rt: HostRuntime) -> Result<(), Fail> {
    let alloc = rt.alloc();
    is_printed(
        &rt,
        alloc,
        RuleRefusal::CountOutside,
        "the count is not 1 to 14",
    )?;
    is_printed(&rt, alloc, RuleRefusal::SameCue, "A and B are the same cue")
}
