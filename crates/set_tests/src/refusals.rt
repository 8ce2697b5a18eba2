use crate::owners::expect_that;
use std::alloc::Global;
use std::test::Fail;
use zset_commands::Refusal;

// Why requests are refused.
static REFUSALS: [Refusal; 9] = [
    Refusal::UnknownCommand,
    Refusal::WrongArity,
    Refusal::Syntax,
    Refusal::NxAndXx,
    Refusal::IncrPair,
    Refusal::BadScore,
    Refusal::BadBound,
    Refusal::BadInteger,
    Refusal::GtLtNx,
];

fn expect_shown(alloc: Global, refusal: &Refusal) -> Result<(), Fail> {
    let shown = refusal.to_string(alloc)?;
    let is_text = shown.as_str() == refusal.text();
    drop(shown);
    expect_that(is_text, refusal.text())
}

#[test]
fn refusals_are_shown_by_their_texts(rt: HostRuntime) -> Result<(), Fail> {
    for refusal in &REFUSALS {
        expect_shown(rt.alloc(), refusal)?;
    }
    assert!(rt; Refusal::OutOfStep.number() == 17);
    assert!(rt; Refusal::NoMemory.text() == "ERR 1 out of memory");
    Ok(())
}
