// Laws of frames that are read from a source. Each call does nothing: its contract is the law.
ghost use Rattle.std.specs.Prelude.{◌≡◌, ◌≤◌, ◌++◌, ℕ, List, [], ◌∷◌, false, Option, Some, Err, take};
ghost use Rattle.std.specs.Io.KnownBytes.{Consumes};
ghost use Rattle.link_frames.specs.declared.fault.FrameFault.{FrameFault};
ghost use Rattle.link_frames.specs.Frames.{Content, IsFrame, frame_bytes};
ghost use Rattle.link_frames.specs.Splits.{AreBytes, Splits, fault_at, is_whole, end_at};
ghost use Rattle.framed_input.specs.FramesIn.{frames_in, rest_in};
ghost use Rattle.framed_input.specs.Intake.{Intake};
ghost use Rattle.framed_input.specs.Limits.{greatest_input};
ghost use Rattle.framed_input.specs.Reading.{HasRead};
ghost use Rattle.framed_input.specs.Taking.{Takes};

/// The frames of an input and what comes after them are what it splits into (docs/FORMATS.md, "Frames").
pub fn frames_of_an_input()
    ensures only { (bytes : List ℕ) (frames : List Content) (rest : List ℕ) → Splits bytes frames rest → (frames ≡ frames_in bytes) × (rest ≡ rest_in bytes) }
    ensures splits { (bytes : List ℕ) → AreBytes bytes → Splits bytes (frames_in bytes) (rest_in bytes) }
{}

/// With more bytes come the frames of what was left with these bytes: those of a front part of an input are its first ones.
pub fn frames_of_more()
    ensures frames { (bytes more : List ℕ) → AreBytes (bytes ++ more) → frames_in (bytes ++ more) ≡ frames_in bytes ++ frames_in (rest_in bytes ++ more) }
    ensures rest { (bytes more : List ℕ) → AreBytes (bytes ++ more) → rest_in (bytes ++ more) ≡ rest_in (rest_in bytes ++ more) }
{}

/// Before the first call nothing was read.
pub fn reading_starts()
    ensures { HasRead [] [] (record { held = []; taken = 0 }) }
{}

/// What a call takes comes after what was taken.
pub fn taking_more()
    ensures read { (bytes : List ℕ) (frames : List Content) (left rest : Option (List ℕ)) (old new : Intake) (takes : Takes greatest_input left rest old new)
        → HasRead bytes frames old → HasRead (bytes ++ takes.more) frames new }
    ensures source { (bytes : List ℕ) (first left rest : Option (List ℕ)) (old new : Intake) (takes : Takes greatest_input left rest old new)
        → Consumes first left bytes → Consumes first rest (bytes ++ takes.more) }
{}

/// A frame at the front of what is held comes after those that were handed out.
pub fn handing_out()
    ensures { (bytes : List ℕ) (frames : List Content) (f : Content) (old new : Intake) → HasRead bytes frames old → IsFrame f
        → old.held ≡ frame_bytes f ++ new.held → new.taken ≡ old.taken → HasRead bytes (frames ++ f ∷ []) new }
{}

/// The frames that were handed out are the first ones of the input, whatever else comes, and all of what was taken where no
/// whole frame is held. Of an input that is too long this is said of its first 2^40 bytes; a shorter one is its own front part.
pub fn frames_come_in_order()
    ensures first { (bytes more : List ℕ) (frames all : List Content) (rest : List ℕ) (now : Intake) → HasRead bytes frames now
        → Splits (take greatest_input bytes ++ more) all rest → (later : List Content) × (all ≡ frames ++ later) }
    ensures all { (bytes : List ℕ) (frames : List Content) (now : Intake) → HasRead bytes frames now → is_whole now.held ≡ false
        → Splits (take greatest_input bytes) frames now.held }
    ensures short { (bytes : List ℕ) (frames : List Content) (now : Intake) → HasRead bytes frames now → now.taken ≤ greatest_input
        → take greatest_input bytes ≡ bytes }
{}

/// Where a fault is held, the frames that were handed out are all, whatever comes after it, and the fault ends them.
pub fn faults_end_the_frames()
    ensures { (bytes more : List ℕ) (frames : List Content) (now : Intake) (e : FrameFault) → HasRead bytes frames now → fault_at now.held ≡ Some e
        → Splits (take greatest_input bytes ++ more) frames (now.held ++ more) × (end_at (now.held ++ more) ≡ Err e) }
{}
