// Tests of catalogues, of sessions of both variants with the ledger below them, and of traces with
// the verdict on each: worked stories, and each public call once where memory is ample. Nothing
// else stands here.
#![tactic(auto)]

#[cfg(test)]
mod catalogue;
#[cfg(test)]
mod delta;
#[cfg(test)]
mod ledger;
#[cfg(test)]
mod many_writes;
#[cfg(test)]
mod pieces;
#[cfg(test)]
mod sotw;
#[cfg(test)]
mod stories;
#[cfg(test)]
mod traces;
#[cfg(test)]
mod verdicts;
