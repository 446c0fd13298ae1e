// Laws of frames that arrive together (docs/MODEL.md, "Groups"). Each call does nothing: its contract is the law.
ghost use Rattle.std.specs.Prelude.{◌≡◌, ◌≢◌, ◌≤◌, ℕ, List, [], ◌∷◌, ◌++◌, length, map};
ghost use Rattle.std.specs.List.{AllByRecursion, Contains};
ghost use Rattle.std.specs.Option.{option_to_list};
ghost use Rattle.faim_base.specs.Numbers.{IsMoment};
ghost use Rattle.link_frames.specs.Frames.{Content as Frame};
ghost use Rattle.host_ledger.specs.declared.config.Config.{Config};
ghost use Rattle.host_ledger.specs.declared.entries.Entry.{Entry};
ghost use Rattle.host_ledger.specs.Ranges.{IsEntry};
ghost use Rattle.host_ledger.specs.Soundness.{IsConfig};
ghost use Rattle.faim_model.specs.Frames.{Covered};
ghost use Rattle.faim_model.specs.Lawful.{Follows, Lawful, last_moment};
ghost use Rattle.faim_model.specs.Sending.{resume_frames, unmarked};
ghost use Rattle.faim_model.specs.Sessions.{Arrival, IsArrival, entries_after, frames_at};
ghost use Rattle.faim_model.specs.Steps.{host_step};
ghost use Rattle.host_batches.specs.Groups.{Group, IsGroup, arrivals_of, entries_after_group, first_sent, group_step, recent_after_groups, recent_by};

/// A host takes the frames of a group one after another. A group of one frame is the host's step over it; one frame more is the
/// step over that frame, with the entries that the others added.
pub fn groups_go_frame_by_frame()
    ensures none { (c : Config) (es : List Entry) (reading : ℕ)
        → group_step c es (record { frames = []; reading = reading }) ≡ record { adds = []; sends = [] } }
    ensures one { (c : Config) (es : List Entry) (f : Frame) (reading : ℕ)
        → group_step c es (record { frames = f ∷ []; reading = reading })
        ≡ record { adds = option_to_list (host_step c es f reading).adds; sends = (host_step c es f reading).sends } }
    ensures more { (c : Config) (es : List Entry) (fs : List Frame) (f : Frame) (reading : ℕ)
        → group_step c es (record { frames = fs ++ f ∷ []; reading = reading })
        ≡ record {
          adds = option_to_list (host_step c (entries_after_group c es (record { frames = fs; reading = reading })) f reading).adds
              ++ (group_step c es (record { frames = fs; reading = reading })).adds;
          sends = (group_step c es (record { frames = fs; reading = reading })).sends
              ++ (host_step c (entries_after_group c es (record { frames = fs; reading = reading })) f reading).sends;
        } }
{}

/// A group adds at most one entry for each of its frames. Each of them may follow those before it, and where the clock and the
/// newest entry are in the calendar each has a spelling; so a lawful list stays lawful. The list with all of them covers each
/// frame that the group sends.
pub fn groups_stay_sound()
    ensures few { (c : Config) (es : List Entry) (g : Group) → length (group_step c es g).adds ≤ length g.frames }
    ensures lawful { (c : Config) (es : List Entry) (g : Group) → Lawful c es → Lawful c (entries_after_group c es g) }
    ensures follows { (c : Config) (es : List Entry) (g : Group) (later older : List Entry) (x : Entry)
        → (group_step c es g).adds ≡ later ++ x ∷ older → Follows c (older ++ es) x }
    ensures spelled { (c : Config) (es : List Entry) (g : Group) (x : Entry)
        → IsConfig c → IsMoment g.reading → IsMoment (last_moment es) → Contains (group_step c es g).adds x → IsEntry x }
    ensures in_calendar { (c : Config) (es : List Entry) (g : Group)
        → IsMoment g.reading → IsMoment (last_moment es) → IsMoment (last_moment (entries_after_group c es g)) }
    ensures covered { (c : Config) (es : List Entry) (g : Group) (f : Frame)
        → IsGroup g → IsMoment (last_moment es) → Contains (group_step c es g).sends f → Covered c (entries_after_group c es g) f }
{}

/// A group tells the entries that it adds: each frame of their first sending is sent in it, and a resume after it sends these
/// frames again, the same but for their marks. After a group that adds nothing a resume sends what it would have sent before.
pub fn groups_are_told()
    ensures first { (c : Config) (es : List Entry) (g : Group) (f : Frame)
        → Contains (first_sent c es (group_step c es g).adds) f → Contains (group_step c es g).sends f }
    ensures again { (c : Config) (es : List Entry) (r : ℕ) (g : Group) → (group_step c es g).adds ≢ []
        → map unmarked (resume_frames c (entries_after_group c es g) (recent_by r (group_step c es g).adds))
        ≡ map unmarked (first_sent c es (group_step c es g).adds) }
    ensures kept { (c : Config) (es : List Entry) (r : ℕ) (g : Group) → (group_step c es g).adds ≡ []
        → resume_frames c (entries_after_group c es g) (recent_by r (group_step c es g).adds) ≡ resume_frames c es r }
{}

/// Groups make the session of their frames, each at the reading of its group: they leave its entries and send its frames. The
/// last record is one of the list's.
pub fn sessions_over_groups()
    ensures entries { (c : Config) (es : List Entry) (g : Group) (later : List Group)
        → entries_after c es (arrivals_of (g ∷ later)) ≡ entries_after c (entries_after_group c es g) (arrivals_of later) }
    ensures frames { (c : Config) (es : List Entry) (g : Group) (later : List Group)
        → frames_at c es (arrivals_of (g ∷ later)) ≡ (group_step c es g).sends ++ frames_at c (entries_after_group c es g) (arrivals_of later) }
    ensures sound { (groups : List Group) → AllByRecursion IsGroup groups → AllByRecursion IsArrival (arrivals_of groups) }
    ensures recent { (c : Config) (es : List Entry) (r : ℕ) (groups : List Group)
        → r ≤ length es → recent_after_groups c es r groups ≤ length (entries_after c es (arrivals_of groups)) }
{}
