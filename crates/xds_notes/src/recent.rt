// The lines of changes that were refused last.
ghost use Rattle.std.specs.Prelude.{◌≡◌, ◌⊎◌, [], ◌∷◌, ◌++◌, string_bytes, IfOk, OnOk};
ghost use Rattle.xds_notes.specs.Notes.{IsKeptBehind, recent_text, refused_line, still_kept};

use crate::fault::Fault;
use crate::note::refused_line;
use std::alloc::Global;
use xds_resource::Refusal;

/// As many of them as are kept.
pub const MOST_RECENT: usize = 8;

/// The last lines that were refused, by their numbers in the input or in the body that they came in.
#[derive(Drop)]
pub struct Recent {
    lines: Vec<(u64, Fault)>,
}

impl Recent {
    /// None was refused.
    pub fn new(alloc: Global) -> Recent
        ensures { result.lines.items ≡ [] }
    {
        Recent {
            lines: Vec::new(alloc),
        }
    }

    /// One more was refused. Without memory it isn't kept.
    pub fn add(&mut self, line: u64, fault: Fault)
        ensures { IsKeptBehind self.old.lines.items self.new.lines.items line fault }
    {
        self.make_room();
        let _ = self.lines.push((line, fault));
    }

    // Where as many are kept as may be, the first one goes.
    fn make_room(&mut self)
        ensures { self.new.lines.items ≡ still_kept self.old.lines.items }
    {
        if self.lines.len() >= MOST_RECENT {
            self.lines.remove(0);
        }
    }

    /// Their lines, the last one first.
    pub fn text(&self, alloc: Global) -> Result<String, Refusal>
        ensures { IfOk result (λ t. string_bytes t ≡ recent_text self.now.lines.items) }
    {
        let mut text = String::new(alloc);
        for (line, fault) in &self.lines {
            text = before(alloc, refused_line(alloc, *line, *fault)?, &text)?;
        }
        Ok(text)
    }
}

// A line before a text.
fn before(alloc: Global, line: String, text: &String) -> Result<String, Refusal>
    ensures { IfOk result (λ t. string_bytes t ≡ string_bytes line ++ string_bytes text.now) }
{
    let mut line = line;
    line.push_str(text.as_str())?;
    Ok(line)
}
