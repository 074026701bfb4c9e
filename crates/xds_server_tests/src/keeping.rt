// What is wrong of lines of the input.
use std::alloc::Global;
use std::test::Fail;
use xds_cases::cases::{Outcome, hold};
use xds_causes::cause_of;
use xds_changes::{Kept, MAX_LINE, SaidLine};

// What is wrong of a line.
struct Wrong;

impl Outcome for Wrong {
    fn of(alloc: Global, given: &str) -> Result<String, Fail> {
        Ok(cause_of(alloc, given.as_bytes())?.text(alloc)?)
    }
}

#[test]
fn the_first_part_that_is_wrong_is_told(rt: HostRuntime) -> Result<(), Fail> {
    hold::<Wrong, HostRuntime>(
        &rt,
        "view 1 cluster => unknown command
Put 1 {} => unknown command
put => wrong words
put 0 {} => no number of a replica
put 01 {} => no number of a replica
put 65536 {} => no number of a replica
put 1 => wrong words
put 1 x => 1 NotJson
put 1 {} => 4 BadResource
put 1 [] => 4 BadResource
putin => wrong words
putin x => no number of a replica
putin 1 => wrong words
putin 1 a, {} => 24 BadGroup
putin 1 a => wrong words
putin 1 a {} => 4 BadResource
delete => wrong words
delete 1 => wrong words
delete 1 clusters a => unknown type
delete 1 cluster => wrong words
delete 1 cluster a b => wrong words",
    )
}

// What a line said, in words.
fn word_of(said: SaidLine) -> &'static str {
    let SaidLine { line: _, what } = said;
    match what {
        Ok(Some(_)) => "a change",
        Ok(None) => "nothing",
        Err(fault) => fault.refusal.name(),
    }
}

#[test]
fn a_line_that_is_too_long_is_passed_over(rt: HostRuntime) -> Result<(), Fail> {
    let alloc = rt.alloc();
    let piece = vec![in alloc; b'#'; MAX_LINE / 4]?;
    let mut kept = Kept::new(alloc);
    for _ in 0..4 {
        kept.hold(piece.as_slice());
    }
    assert_eq!(rt; word_of(kept.end(alloc)), "nothing");
    for _ in 0..6 {
        kept.hold(piece.as_slice());
    }
    assert_eq!(rt; word_of(kept.end(alloc)), "TooLong");
    kept.hold(b"delete 1 rou");
    kept.hold(b"te r");
    assert_eq!(rt; word_of(kept.end(alloc)), "a change");
    Ok(())
}
