// The paths of polls, passed on.
pub use xds_polls::type_of_path;
