// Laws of parts. Each is a function that does nothing, whose clause is the law.
ghost use Rattle.std.specs.Prelude.{List};
ghost use Rattle.xds_resource.specs.TypedWrites.{TypedWrite};
ghost use Rattle.xds_exchange.specs.OutboxLaws.{AreTheWrites, AreWithin, FitFrames};

/// The parts, joined in order, are the writes.
pub fn parts_are_the_writes()
    ensures { (ws : List TypedWrite) → AreTheWrites ws }
{}

/// Each part has at most 512 writes, and at most 8,388,608 bytes of bodies and groups.
pub fn parts_are_within_bounds()
    ensures { (ws : List TypedWrite) → AreWithin ws }
{}

/// Each part fits a frame: the text of its batch has at most 16,777,215 bytes.
pub fn parts_fit_frames()
    ensures { (ws : List TypedWrite) → FitFrames ws }
{}
