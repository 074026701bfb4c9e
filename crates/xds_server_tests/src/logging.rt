// Texts of clients, as a server that logs tells them.
use std::alloc::Global;
use std::test::Fail;
use xds_cases::cases::{Outcome, hold};
use xds_stats::excerpt;

// A text as it is shown.
struct Shown;

impl Outcome for Shown {
    fn of(alloc: Global, given: &str) -> Result<String, Fail> {
        Ok(excerpt(alloc, given)?)
    }
}

#[test]
fn a_text_of_a_client_is_a_part_of_a_line(rt: HostRuntime) -> Result<(), Fail> {
    hold::<Shown, HostRuntime>(
        &rt,
        "a b => a b
\"\tx\u{7f}\u{85} => ??x??
é/😀~'\\ => é/😀~'?",
    )
}

#[test]
fn a_long_text_is_cut(rt: HostRuntime) -> Result<(), Fail> {
    let alloc = rt.alloc();
    let mut text = String::new(alloc);
    for _ in 0..257 {
        text.push('é')?;
    }
    let shown = excerpt(alloc, text.as_str())?;
    assert_eq!(rt; shown.as_str().len(), 512);
    Ok(())
}
