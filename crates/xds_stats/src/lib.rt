// What is counted of a server's replicas and streams, and how it is shown: numbers, statuses, pages, and lines of the log. It knows no node.
#![tactic(auto)]

pub mod board;
pub mod counts;
pub mod doors;
pub mod html;
pub mod latencies;
pub mod log_event;
pub mod look;
pub mod metrics;
pub mod moment;
pub mod numbers;
pub mod pages;
pub mod plain_status;
pub mod puts;
pub mod responses;
pub mod sight;
pub mod sizes;
pub mod state;
pub mod status_text;
pub mod stream_status;
pub mod trend;
pub mod version;

pub use doors::Doors;
pub use html::escaped;
pub use latencies::Latencies;
pub use log_event::{
    FirstRequest, LogEvent, MOST_SHOWN, Maker, Rejection, StreamPlace, excerpt, number_text,
};
pub use look::{ReplicaSizes, look_in};
pub use metrics::{MetricKind, Metrics, seconds_text};
pub use moment::{Moment, millis_now, utc_text};
pub use numbers::{Numbers, RestCounts, StreamCounts};
pub use pages::{ReplicaNumbers, numbers_text};
pub use responses::{responses_json, warnings_html};
pub use sizes::{Ceiling, MOST_BYTES, beyond_by, long_text, longest_bytes, refused_bytes};
pub use state::TypeState;
pub use version::VERSION;
