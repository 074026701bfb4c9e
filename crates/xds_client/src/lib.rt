// A client of the program on one stream: it asks for names of one type, answers responses and prints what it holds then.
#![tactic(auto)]

pub mod answering;
pub mod connecting;
pub mod opening;
pub mod printing;
pub mod running;
pub mod subscription;

pub use connecting::{ConnectingEnd, Dials, Side, Tcp, run_at};
pub use running::run_client;
pub use subscription::{StreamVariant, Subscription};
