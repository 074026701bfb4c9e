// Numbers of a server in the text format of Prometheus.
ghost use Rattle.std.specs.Prelude.{◌≡◌, ◌++◌, [], string_bytes, IfOk, OnOk};
ghost use Rattle.xds_stats.specs.Metrics.{help_line, kind_word, sample_line, seconds_text, value_line};

use std::alloc::Global;
use xds_resource::Refusal;

/// What a number does.
#[derive(Clone, Copy, Debug, PartialEq, Eq)]
pub enum MetricKind {
    /// It only rises.
    Counter,
    /// It rises and falls.
    Gauge,
    /// It counts how long something took.
    Histogram,
}

impl MetricKind {
    // Its word in the format.
    fn word(self) -> &'static str
        ensures { result.now ≡ kind_word self }
    {
        match self {
            MetricKind::Counter => "counter",
            MetricKind::Gauge => "gauge",
            MetricKind::Histogram => "histogram",
        }
    }
}

/// A text of numbers, line by line.
#[derive(Drop)]
pub struct Metrics {
    alloc: Global,
    text: String,
}

impl Metrics {
    /// That of no number.
    pub fn new(alloc: Global) -> Metrics
        ensures { string_bytes result.text ≡ [] }
    {
        Metrics {
            alloc,
            text: String::new(alloc),
        }
    }

    /// Says what the numbers of a name are, in a sentence of one line without a backslash, and what they do.
    pub fn about(&mut self, name: &str, help: &str, kind: MetricKind) -> Result<(), Refusal>
        ensures { OnOk result (string_bytes self.new.text ≡ string_bytes self.old.text ++ help_line name.now help.now kind) }
    {
        let kind = kind.word();
        let line = format!(in self.alloc; "# HELP {name} {help}\n# TYPE {name} {kind}\n")?;
        self.text.push_str(line.as_str())?;
        Ok(())
    }

    /// Adds the number of a name, with labels, as `replica="1"`.
    pub fn add(&mut self, name: &str, labels: &str, value: u64) -> Result<(), Refusal>
        ensures { OnOk result (string_bytes self.new.text ≡ string_bytes self.old.text ++ sample_line name.now labels.now value) }
    {
        let line = format!(in self.alloc; "{name}{{{labels}}} {value}\n")?;
        self.text.push_str(line.as_str())?;
        Ok(())
    }

    /// Adds the number of a name, with labels, which is this text.
    pub fn add_text(&mut self, name: &str, labels: &str, value: &str) -> Result<(), Refusal>
        ensures { OnOk result (string_bytes self.new.text ≡ string_bytes self.old.text ++ value_line name.now labels.now value.now) }
    {
        let line = format!(in self.alloc; "{name}{{{labels}}} {value}\n")?;
        self.text.push_str(line.as_str())?;
        Ok(())
    }

    /// The text.
    pub fn finish(self) -> String
        ensures { result ≡ self.text }
    {
        let Metrics { alloc: _, text } = self;
        text
    }
}

/// So many microseconds in seconds, as a number of the format.
pub fn seconds_text(alloc: Global, micros: u64) -> Result<String, Refusal>
    ensures { IfOk result (λ t. string_bytes t ≡ seconds_text micros) }
{
    Ok(format!(in alloc; "{micros}e-6")?)
}
