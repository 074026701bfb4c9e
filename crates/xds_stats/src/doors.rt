// How many streams a replica has, and may have.
ghost use Rattle.std.specs.Prelude.{◌≡◌};
ghost use Rattle.xds_stats.specs.Doorways.{has_room};

/// How many connections are served as streams, how many were since the start, and how many were turned away.
#[derive(Clone, Copy, Debug, PartialEq, Eq)]
pub struct Doors {
    pub inside: u64,
    pub opened: u64,
    pub turned_away: u64,
}

impl Doors {
    ghost use Rattle.std.specs.Prelude.{◌≡◌};
    ghost use Rattle.xds_stats.specs.Doorways.{has_room, doors_after, doors_left};

    /// None came.
    pub fn new() -> Doors
        ensures { result ≡ record { inside = 0; opened = 0; turned_away = 0 } }
    {
        Doors {
            inside: 0,
            opened: 0,
            turned_away: 0,
        }
    }

    /// A connection came: whether it is served, where no more than so many may be at a time.
    pub fn admit(&mut self, most: Option<u16>) -> bool
        ensures served { result ≡ has_room self.old.inside most }
        ensures after { self.new ≡ doors_after self.old most }
    {
        let has_room = has_room(self.inside, most);
        if has_room {
            self.inside = self.inside.saturating_add(1);
            self.opened = self.opened.saturating_add(1);
        } else {
            self.turned_away = self.turned_away.saturating_add(1);
        }
        has_room
    }

    /// A connection that was served has ended.
    pub fn leave(&mut self)
        ensures { self.new ≡ doors_left self.old }
    {
        self.inside = self.inside.saturating_sub(1);
    }
}

// Whether there may be one more of so many.
fn has_room(inside: u64, most: Option<u16>) -> bool
    ensures { result ≡ has_room inside most }
{
    match most {
        Some(most) => inside < u64::from(most),
        None => true,
    }
}
