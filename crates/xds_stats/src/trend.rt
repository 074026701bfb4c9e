// How many puts and responses there were in the last minutes, ten seconds at a time, and a picture of them.
use std::alloc::Global;
use xds_resource::Refusal;

/// As many milliseconds as one slot has.
pub const SLOT_MILLISECONDS: u64 = 10_000;

/// As many slots as are kept.
pub const MOST_SLOTS: usize = 30;

/// What was counted in a slot.
#[derive(Clone, Copy, Debug, PartialEq, Eq)]
pub struct TrendSlot {
    /// Its number: how many of its length passed before it since 1970.
    pub number: u64,
    pub puts: u64,
    pub responses: u64,
}

/// What was counted in the last slots in which something was, in order.
#[derive(Drop)]
pub struct Trend {
    slots: Vec<TrendSlot>,
}

impl Trend {
    /// Nothing was counted.
    pub fn new(alloc: Global) -> Trend {
        Trend {
            slots: Vec::new(alloc),
        }
    }

    // The slot of a moment, which is the last one. None where there is no memory.
    fn at(&mut self, millis: u64) -> Option<&mut TrendSlot> {
        let number = millis / SLOT_MILLISECONDS;
        let is_new = match self.slots.as_slice().last() {
            Some(last) => last.number < number,
            None => true,
        };
        if is_new {
            if self.slots.len() >= MOST_SLOTS {
                self.slots.remove(0);
            }
            let slot = TrendSlot {
                number,
                puts: 0,
                responses: 0,
            };
            self.slots.push(slot).ok()?;
        }
        self.slots.as_mut_slice().last_mut()
    }

    /// A change was made here at this moment of the wall clock.
    pub fn put(&mut self, millis: u64) {
        if let Some(slot) = self.at(millis) {
            slot.puts = slot.puts.saturating_add(1);
        }
    }

    /// A stream was told a response at this moment of the wall clock.
    pub fn respond(&mut self, millis: u64) {
        if let Some(slot) = self.at(millis) {
            slot.responses = slot.responses.saturating_add(1);
        }
    }

    // The greatest count of a slot.
    fn most(&self) -> u64 {
        let mut most = 1;
        for slot in &self.slots {
            most = most.max(slot.puts).max(slot.responses);
        }
        most
    }

    /// A picture of the last slots up to this moment, as SVG: two bars for each slot, of puts and of responses.
    pub fn svg(&self, alloc: Global, millis: u64) -> Result<String, Refusal> {
        let most = self.most();
        let now = millis / SLOT_MILLISECONDS;
        let mut text = format!(in alloc;
            "<svg width=\"620\" height=\"90\" role=\"img\" aria-label=\"puts and responses of the last five minutes\"><rect width=\"620\" height=\"90\" class=\"back\"/><text x=\"4\" y=\"12\">puts (dark) and responses (light) of the last five minutes, at most {most} in ten seconds</text>"
        )?;
        for slot in &self.slots {
            let age = now.saturating_sub(slot.number);
            if age < MOST_SLOTS as u64 {
                let left = (MOST_SLOTS as u64)
                    .saturating_sub(age.saturating_add(1))
                    .saturating_mul(20);
                push_bar(
                    alloc,
                    &mut text,
                    left.saturating_add(8),
                    slot.puts,
                    most,
                    "puts",
                )?;
                push_bar(
                    alloc,
                    &mut text,
                    left.saturating_add(16),
                    slot.responses,
                    most,
                    "responses",
                )?;
            }
        }
        text.push_str("</svg>\n")?;
        Ok(text)
    }
}

// Adds a bar.
fn push_bar(
    alloc: Global,
    text: &mut String,
    left: u64,
    count: u64,
    most: u64,
    class: &str,
) -> Result<(), Refusal> {
    if count == 0 {
        return Ok(());
    }
    let height = (count.saturating_mul(64) / most.max(1)).max(1);
    let top = 86u64.saturating_sub(height);
    let bar = format!(in alloc;
        "<rect class=\"{class}\" x=\"{left}\" y=\"{top}\" width=\"7\" height=\"{height}\"><title>{count} {class}</title></rect>"
    )?;
    text.push_str(bar.as_str())?;
    Ok(())
}
