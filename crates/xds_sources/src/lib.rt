// What a folder of files says shall be held: the resources of its files, what is to be changed so that exactly these are held, and
// references of resources that lead nowhere.
#![tactic(auto)]

pub mod differences;
pub mod fault;
pub mod keys;
pub mod laws;
pub mod reading;
pub mod references;
pub mod walking;

pub use differences::{SourceChange, difference};
pub use fault::{FilePlace, SourceFault, Wrong};
pub use keys::key_of;
pub use reading::{FileResource, MAX_SOURCES, SourceFile, is_source, read_sources};
pub use references::{Dangling, Reference, dangling_in, references_of};
