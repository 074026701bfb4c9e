// The version of this program.

/// What `xds --version` says behind the name of the program, and what a server shows of itself.
pub const VERSION: &str = "0.1.0";
