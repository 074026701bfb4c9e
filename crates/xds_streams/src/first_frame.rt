// How much of a stream's first frame has come.

/// What has come of the first frame of a stream: how many bytes, and what the first four of them say of the length.
#[derive(Clone, Copy, Debug, PartialEq, Eq)]
pub struct FirstFrame {
    come: u64,
    length: u64,
}

impl FirstFrame {
    ghost use Rattle.std.specs.Prelude.{◌≡◌};
    ghost use Rattle.xds_streams.specs.Limits.{frame_after, frame_step, is_whole, length_after};

    /// Nothing has come.
    pub fn new() -> FirstFrame
        ensures { result ≡ record { come = 0; length = 0 } }
    {
        FirstFrame { come: 0, length: 0 }
    }

    /// Bytes more have come.
    pub fn take(&mut self, piece: &[u8])
        ensures { self.new ≡ frame_after self.old piece.now }
    {
        for byte in piece {
            self.step(*byte);
        }
    }

    // One byte more has come.
    fn step(&mut self, byte: u8)
        ensures { self.new ≡ frame_step self.old byte }
    {
        self.length = self.length_after(byte);
        self.come = self.come.saturating_add(1);
    }

    // What the first four bytes say of the length, once one byte more has come.
    fn length_after(self, byte: u8) -> u64
        ensures { result ≡ length_after self byte }
    {
        if self.come < 4 {
            return self
                .length
                .saturating_mul(256)
                .saturating_add(u64::from(byte));
        }
        self.length
    }

    /// Whether it has come whole.
    pub fn is_whole(&self) -> bool
        ensures { result ≡ is_whole self.now }
    {
        self.come >= 4 && self.come - 4 >= self.length
    }
}
