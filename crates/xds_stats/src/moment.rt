// When something is noted, and how that is told.
use httpdate::{HttpDate, fmt_http_date};
use std::alloc::Global;
use std::time::{Clock, Instant, SystemTime, UNIX_EPOCH};
use xds_resource::Refusal;

/// When something is noted.
#[derive(Clone, Copy)]
pub struct Moment {
    /// By the clock that only rises, if it is known.
    pub instant: Option<Instant>,
    /// By the wall clock: the milliseconds since the beginning of 1970 in UTC. 0 where that isn't known.
    pub millis: u64,
}

impl Moment {
    /// Now.
    pub fn now<C: Clock>(clock: &C) -> Moment {
        Moment {
            instant: Instant::now(clock).ok(),
            millis: millis_now(clock),
        }
    }
}

/// The milliseconds since the beginning of 1970 in UTC. 0 where that isn't known.
pub fn millis_now<C: Clock>(clock: &C) -> u64 {
    let Ok(now) = SystemTime::now(clock) else {
        return 0;
    };
    match now.duration_since(UNIX_EPOCH) {
        Ok(time) => u64::try_from(time.as_millis()).unwrap_or(0),
        Err(_) => 0,
    }
}

/// A moment of the wall clock, as RFC 3339 writes it in UTC: `2026-11-28T19:44:33.123Z`. Empty past the year 9999.
pub fn utc_text(alloc: Global, millis: u64) -> Result<String, Refusal> {
    let Ok(date) = HttpDate::from_unix_secs(millis / 1_000) else {
        return Ok(String::new(alloc));
    };
    let text = fmt_http_date(alloc, date)?;
    let text = text.as_str();
    let year = part(text, 12, 16);
    let month = month_of(part(text, 8, 11));
    let day = part(text, 5, 7);
    let time = part(text, 17, 25);
    let fraction = millis % 1_000 + 1_000;
    let fraction = format!(in alloc; "{fraction}")?;
    let fraction = part(fraction.as_str(), 1, 4);
    Ok(format!(in alloc; "{year}-{month}-{day}T{time}.{fraction}Z")?)
}

// The part of a text between two places, if it is there.
fn part(text: &str, from: usize, to: usize) -> &str {
    match text.get(from..to) {
        Some(part) => part,
        None => "",
    }
}

// The number of a month, by its name in a header of HTTP.
fn month_of(name: &str) -> &'static str {
    match name {
        "Jan" => "01",
        "Feb" => "02",
        "Mar" => "03",
        "Apr" => "04",
        "May" => "05",
        "Jun" => "06",
        "Jul" => "07",
        "Aug" => "08",
        "Sep" => "09",
        "Oct" => "10",
        "Nov" => "11",
        _ => "12",
    }
}
