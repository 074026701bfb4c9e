// Laws of frames and of decoders, each the contract of a function that does nothing.
ghost use Rattle.std.specs.Prelude.{◌≡◌, ◌<◌, ℕ, List, [], ◌∷◌, ◌++◌, Option, Result};
ghost use Rattle.xds_resource.specs.declared.refusal.Refusal.{Refusal as Refused};
ghost use Rattle.xds_frames.specs.declared.frame.Frame.{Frame};
ghost use Rattle.xds_frames.specs.Frames.{Framed, AreBytes, IsFrame, IsFault, IsPartial, frame_bytes};
ghost use Rattle.xds_frames.specs.Decoding.{IsFed, GivesNext, Finishes, framed};
ghost use Rattle.xds_frames.specs.Reading.{Splits, IsRead, HasDecoded, HasGivenAll, refused_by};

// rule: whole-frames
/// However bytes are cut into pieces, and whenever a decoder is asked, what it gave are the first frames of all bytes that
/// it was fed: so it is at the start, and each call keeps it.
pub fn decoders_keep_to_the_bytes()
    ensures start { HasDecoded [] [] [] }
    ensures fed { (bytes left piece after : List ℕ) (given : List Framed) → HasDecoded bytes given left
        → IsFed left piece after → HasDecoded (bytes ++ piece) given after }
    ensures given { (bytes left after : List ℕ) (given : List Framed) (f : Frame) → HasDecoded bytes given left
        → GivesNext left (Ok (Some f)) after → HasDecoded bytes (given ++ framed f ∷ []) after }
{}

// rule: whole-frames
/// A decoder that gives none has given all whole frames of the bytes, and tells how they end.
pub fn decoders_leave_nothing_out()
    ensures first { (bytes left : List ℕ) (given frames : List Framed) (end : Option Refused) → HasDecoded bytes given left
        → IsRead bytes frames end → (later : List Framed) × (frames ≡ given ++ later) }
    ensures all { (bytes left : List ℕ) (given : List Framed) → HasDecoded bytes given left → IsPartial left
        → Splits bytes given left }
    ensures finished { (bytes left : List ℕ) (given : List Framed) (end : Result Unit Refused) → HasDecoded bytes given left
        → IsPartial left → Finishes left end → IsRead bytes given (refused_by end) }
    ensures refused { (bytes left : List ℕ) (given : List Framed) (e : Refused) → HasDecoded bytes given left
        → IsFault left e → IsRead bytes given (Some e) }
{}

// rule: whole-frames
/// Any cutting gives the same frames: decoders that were fed the same bytes in all, in whatever pieces, and have no more to
/// give, gave the same.
pub fn any_cutting_gives_the_same_frames()
    ensures { (bytes left rest : List ℕ) (given others : List Framed) → HasDecoded bytes given left
        → HasDecoded bytes others rest → HasGivenAll left → HasGivenAll rest → given ≡ others }
{}

// rule: whole-frames
/// A fault stands for good: no piece changes what is left, and each call tells it again.
pub fn faults_stand()
    ensures fed { (left piece after : List ℕ) (e : Refused) → IsFault left e → IsFed left piece after → after ≡ left }
    ensures next { (left after : List ℕ) (e : Refused) (r : Result (Option Frame) Refused) → IsFault left e
        → GivesNext left r after → (r ≡ Err e) × (after ≡ left) }
    ensures finished { (left : List ℕ) (e : Refused) (r : Result Unit Refused) → IsFault left e → Finishes left r → r ≡ Err e }
{}

// rule: whole-frames
/// A frame that was written is found again, whatever follows it.
pub fn written_frames_are_found()
    ensures { (f : Framed) (rest after : List ℕ) (r : Result (Option Frame) Refused) → IsFrame f
        → GivesNext (frame_bytes f ++ rest) r after → (g : Frame) × (r ≡ Ok (Some g)) × (framed g ≡ f) × (after ≡ rest) }
{}

// rule: whole-frames
/// All bytes are read as frames, up to their end or a fault, and in one way.
pub fn bytes_are_read_in_one_way()
    ensures one { (bytes : List ℕ) (frames others : List Framed) (end another : Option Refused) → IsRead bytes frames end
        → IsRead bytes others another → (frames ≡ others) × (end ≡ another) }
    ensures some { (bytes : List ℕ) → AreBytes bytes
        → (frames : List Framed) × (end : Option Refused) × IsRead bytes frames end }
{}
