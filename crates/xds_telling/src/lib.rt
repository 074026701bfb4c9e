// What a server, and the commands that ask one, tell on the error output.
#![tactic(auto)]

pub mod serve_telling;
