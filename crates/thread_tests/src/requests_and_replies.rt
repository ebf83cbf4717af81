// Refusals and replies, each with the line that it is answered.
mod answers;
mod fronts;
mod replies;
mod site;
mod texts;

use answers::{note, response_text};
use qkd_base::Memory;
use qkd014_api::front_response;
use site::api;
use std::alloc::Global;
use std::test::Fail;

fn compare_refusals(alloc: Global, wrong: &mut String) -> Result<(), Memory> {
    for (refusal, want) in fronts::REFUSALS {
        let response = front_response(alloc, refusal)?;
        let found = response_text(alloc, &response)?;
        note(want, found.as_str(), want, wrong)?;
    }
    Ok(())
}

// The rows that are answered otherwise, and how.
fn wrong(alloc: Global) -> Result<String, Memory> {
    let api = api(alloc)?;
    let mut wrong = String::new(alloc);
    compare_refusals(alloc, &mut wrong)?;
    replies::compare(alloc, &api, &mut wrong)?;
    Ok(wrong)
}

#[test]
fn each_row_is_answered(rt: HostRuntime) -> Result<(), Fail> {
    let wrong = wrong(rt.alloc())?;
    assert_eq!(rt; wrong.as_str(), "");
    Ok(())
}
