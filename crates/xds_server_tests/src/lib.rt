// Tests of the parts of a server, called one by one; of inputs that fail, at ports from 18500; and of a journal that is cut by its weight.
// Of the program as a whole, bench/gate/commands.py has them.
#![tactic(auto)]

#[cfg(test)]
mod admin;
#[cfg(test)]
mod endings;
#[cfg(test)]
mod inputs;
#[cfg(test)]
mod keeping;
#[cfg(test)]
mod limits;
#[cfg(test)]
mod logging;
#[cfg(test)]
mod progress;
#[cfg(test)]
mod recording;
#[cfg(test)]
mod weights;
#[cfg(test)]
mod words;
