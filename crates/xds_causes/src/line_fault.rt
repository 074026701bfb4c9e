// A line that is refused, by its number.

use xds_resource::Refusal;

/// Which line of an input is refused, and why.
#[derive(Clone, Copy, Debug, PartialEq, Eq)]
pub struct LineFault {
    /// The number of the line, from 1.
    pub line: usize,
    pub refusal: Refusal,
}
