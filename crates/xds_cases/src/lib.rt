// How the tests of the other crates are told: as tables in one text, a case a line, or as stories,
// a step a line.
#![tactic(auto)]

pub mod cases;
pub mod scripts;
