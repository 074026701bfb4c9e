// Tests of the store of writes: over disks in memory that fail and crash, over files, and on files that are refused.
// Nothing else stands here.
#![tactic(auto)]

#[cfg(test)]
mod closing;
#[cfg(test)]
mod crashes;
#[cfg(test)]
mod files;
#[cfg(test)]
mod given;
#[cfg(test)]
mod paths;
#[cfg(test)]
mod refused;
