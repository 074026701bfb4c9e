// Tests of the programs, over readers and writers in memory, and of the worlds that scripts are
// played in. Nothing else stands here.
#![tactic(auto)]

#[cfg(test)]
mod blocks;
#[cfg(test)]
mod play;
#[cfg(test)]
mod program;
#[cfg(test)]
mod told;
#[cfg(test)]
mod trace;
#[cfg(test)]
mod words;
#[cfg(test)]
mod worlds;
