// Limits of a server's streams.
use std::alloc::Global;
use std::test::Fail;
use xds_cases::cases::{Outcome, hold};
use xds_stats::Doors;
use xds_streams::FirstFrame;

// Whether a first frame has come whole, of pieces that are written in hexadecimal digits.
struct Whole;

impl Outcome for Whole {
    fn of(alloc: Global, given: &str) -> Result<String, Fail> {
        let mut first = FirstFrame::new();
        for piece in given.split(' ') {
            for digit in piece.bytes() {
                first.take(&[digit.wrapping_sub(b'0')]);
            }
        }
        let word = if first.is_whole() { "whole" } else { "not yet" };
        Ok(String::from_str(alloc, word)?)
    }
}

#[test]
fn a_first_frame_is_whole_once_all_of_it_came(rt: HostRuntime) -> Result<(), Fail> {
    hold::<Whole, HostRuntime>(
        &rt,
        "000 => not yet
0000 => whole
0002 => not yet
0002 7 => not yet
0002 71 => whole
00 02 7 1 0 => whole
1000 71 => not yet",
    )
}

// Two at most: the third is turned away, and comes in once one has left.
#[test]
fn doors_count(rt: HostRuntime) {
    let mut doors = Doors::new();
    let first = doors.admit(Some(2)) && doors.admit(Some(2)) && !doors.admit(Some(2));
    doors.leave();
    let second = doors.admit(Some(2)) && !doors.admit(Some(2)) && doors.admit(None);
    assert!(rt; first && second, "two at most");
    assert_eq!(rt; doors.inside, 3);
    assert_eq!(rt; doors.opened, 4);
    assert_eq!(rt; doors.turned_away, 2);
}
