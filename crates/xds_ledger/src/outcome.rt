// What becomes of a request.
/// What became of a request.
#[derive(Clone, Copy, Debug, PartialEq, Eq)]
pub enum Outcome {
    /// It settled the response that it answers, if it answers one, and its names were taken.
    Taken,
    /// It speaks of a response that is out of date, so nothing happened.
    Ignored,
}
