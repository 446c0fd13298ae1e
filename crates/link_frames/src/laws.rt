// Laws of bytes as frames. Each call does nothing: its contract is the law.
ghost use Rattle.std.specs.Prelude.{◌≡◌, ◌⊎◌, ◌↔◌, ◌<◌, ◌≤◌, ◌++◌, ℕ, List, [], length, take, drop, true, false, Some, None, Ok, Err, slice_index};
ghost use Rattle.std.specs.List.{flat_map, list_all, AllByRecursion};
ghost use Rattle.faim_base.specs.Text.{is_name_byte};
ghost use Rattle.link_frames.specs.declared.fault.FrameFault.{FrameFault};
ghost use Rattle.link_frames.specs.Frames.{Content, IsFrame, frame_bytes};
ghost use Rattle.link_frames.specs.Splits.{AreBytes, Splits, fault_at, is_whole, length_at, end_at};

/// Each input is frames and a rest (docs/FORMATS.md, "Frames").
pub fn each_input_splits()
    ensures { (bytes : List ℕ) → AreBytes bytes → (frames : List Content) × (rest : List ℕ) × Splits bytes frames rest }
{}

/// An input is frames and a rest in one way, and any other run of frames at its front is shorter and the begin of that one.
pub fn one_splitting()
    ensures one { (bytes : List ℕ) (f g : List Content) (r s : List ℕ) → Splits bytes f r → Splits bytes g s → (f ≡ g) × (r ≡ s) }
    ensures longest { (bytes : List ℕ) (f g : List Content) (r s : List ℕ) → Splits bytes f r → AllByRecursion IsFrame g → bytes ≡ flat_map frame_bytes g ++ s
        → (more : List Content) × (f ≡ g ++ more) × (s ≡ flat_map frame_bytes more ++ r) }
{}

/// With more bytes the frames are those of before and then those of the rest with these bytes.
pub fn splittings_go_on()
    ensures { (bytes more : List ℕ) (f g : List Content) (r s : List ℕ) → Splits bytes f r → Splits (r ++ more) g s → Splits (bytes ++ more) (f ++ g) s }
{}

/// A whole frame stands at the front exactly where the bytes begin with those of a frame.
pub fn whole_fronts_are_frames()
    ensures frame { (f : Content) (more : List ℕ) → IsFrame f → is_whole (frame_bytes f ++ more) ≡ true }
    ensures whole { (bytes : List ℕ) → AreBytes bytes → is_whole bytes ≡ true → (f : Content) × (more : List ℕ) × IsFrame f × (bytes ≡ frame_bytes f ++ more) }
{}

/// No part of a frame shows a fault. Four bytes or more that are no whole frame show one exactly where no frame begins with them.
pub fn faults_show_what_begins_no_frame()
    ensures front { (f : Content) (n : ℕ) → IsFrame f → fault_at (take n (frame_bytes f)) ≡ None }
    ensures begun { (bytes : List ℕ) → AreBytes bytes → 4 ≤ length bytes → is_whole bytes ≡ false
        → (fault_at bytes ≡ None) ↔ ((f : Content) × (more : List ℕ) × IsFrame f × (bytes ++ more ≡ frame_bytes f)) }
{}

/// Which fault it is: the length's from its fourth byte on; with a good length the kind's; with a good kind the endpoint's
/// from its first bad byte on.
pub fn faults_tell_the_first_bad_part()
    ensures length { (bytes : List ℕ) (n : ℕ) → (fault_at bytes ≡ Some (FrameFault.BadLength n))
        ↔ ((4 ≤ length bytes) × (n ≡ length_at bytes) × ((n < 9) ⊎ (8_201 < n))) }
    ensures kind { (bytes : List ℕ) (k : ℕ) → (fault_at bytes ≡ Some (FrameFault.BadKind k))
        ↔ ((5 ≤ length bytes) × (9 ≤ length_at bytes) × (length_at bytes ≤ 8_201) × (k ≡ slice_index bytes 4) × ((k ≡ 0) ⊎ (7 < k))) }
    ensures endpoint { (bytes : List ℕ) → (fault_at bytes ≡ Some FrameFault.BadEndpoint)
        ↔ ((5 ≤ length bytes) × (9 ≤ length_at bytes) × (length_at bytes ≤ 8_201) × (1 ≤ slice_index bytes 4) × (slice_index bytes 4 ≤ 7)
        × (list_all is_name_byte (take 8 (drop 5 bytes)) ≡ false)) }
{}

/// A fault stays the same, and no whole frame stands there, whatever bytes come after it.
pub fn faults_stay()
    ensures fault { (bytes more : List ℕ) (e : FrameFault) → fault_at bytes ≡ Some e → fault_at (bytes ++ more) ≡ Some e }
    ensures frame { (bytes more : List ℕ) (e : FrameFault) → fault_at bytes ≡ Some e → is_whole (bytes ++ more) ≡ false }
{}

/// What a session knows that was handed frames and holds the bytes after them: these are the frames of its input, where no
/// whole frame is held, and where what it holds shows a fault, whatever comes after.
pub fn sessions_read_the_frames()
    ensures rest { (f : List Content) (held : List ℕ) → AllByRecursion IsFrame f → is_whole held ≡ false → Splits (flat_map frame_bytes f ++ held) f held }
    ensures fault { (f : List Content) (held more : List ℕ) (e : FrameFault) → AllByRecursion IsFrame f → fault_at held ≡ Some e
        → Splits (flat_map frame_bytes f ++ (held ++ more)) f (held ++ more) × (end_at (held ++ more) ≡ Err e) }
{}

/// An end is good exactly where nothing is left, and cuts a frame off exactly where bytes without a fault are left.
pub fn ends_tell_what_is_left()
    ensures good { (rest : List ℕ) → (end_at rest ≡ Ok tt) ↔ (rest ≡ []) }
    ensures cut { (rest : List ℕ) (n : ℕ) → (end_at rest ≡ Err (FrameFault.CutFrame n)) ↔ ((fault_at rest ≡ None) × (n ≡ length rest) × (1 ≤ n)) }
{}
