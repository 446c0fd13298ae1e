// Laws of worlds. Each call does nothing: its contract is the law.
ghost use Rattle.std.specs.Prelude.{◌≡◌, ◌+◌, ℕ, true, Bool, List, is_some, length, Some, None};
ghost use Rattle.std.specs.List.{AllByRecursion, Contains};
ghost use Rattle.faim_base.specs.declared.judgement.Head.{Head};
ghost use Rattle.faim_base.specs.declared.judgement.Verdict.{Verdict};
ghost use Rattle.faim_message.specs.Spelling.{Content};
ghost use Rattle.link_frames.specs.Frames.{Content as Frame};
ghost use Rattle.host_ledger.specs.declared.config.Config.{Config};
ghost use Rattle.host_ledger.specs.declared.entries.Entry.TheVariants.{Posted};
ghost use Rattle.host_ledger.specs.Soundness.{IsConfig};
ghost use Rattle.faim_model.specs.Landing.{InOrder};
ghost use Rattle.faim_model.specs.Readings.{Acknowledges};
ghost use Rattle.faim_model.specs.Steps.{HostStep};
ghost use Rattle.bank_turns.specs.BankSteps.{BankStep};
ghost use Rattle.bank_accord.specs.Accord.{InboxStands, VerdictsStand};
ghost use Rattle.world_events.specs.Allowed.{AreBanks, IsAct, IsEvent};
ghost use Rattle.world_events.specs.declared.acts.Act.{Act};
ghost use Rattle.world_events.specs.declared.acts.Event.{Event};
ghost use Rattle.world_events.specs.declared.outcomes.Kept.{Kept};
ghost use Rattle.world_events.specs.declared.outcomes.Outcome.{Outcome};
ghost use Rattle.world_model.specs.Worlds.{HasBank, World, started};
ghost use Rattle.world_model.specs.Effects.{AtBank, AtHost, ResumesHost, effect};
ghost use Rattle.world_model.specs.Ways.{BankInOrder, bank_lands, host_lands, is_kept, owed, resume_lands};
ghost use Rattle.world_model.specs.WorldSteps.{ResumeStopsAt, StopsAt, WorldStep, call_of};
ghost use Rattle.world_model.specs.Safety.{IsDraftOf, IsFromBank, Safe};
ghost use Rattle.world_model.specs.Runs.{IsGrownFrom, Run};
ghost use Rattle.world_model.specs.Moments.{IsUpTo, LiesIn};
ghost use Rattle.world_model.specs.Promises.{IsSentAck, KeepsAcks, KeepsFloors, KeepsMoney, NumbersWithoutGaps, PostsOnce, SendsMessages, SendsOutputs, TellsOneVerdict};

/// A world in which nothing has happened is safe, where its configuration is sound and its banks are distinct endpoints of
/// accounts.
pub fn started_worlds_are_safe()
    ensures { (c : Config) (banks : List (List ℕ))
        → IsConfig c → AreBanks c.accounts banks → Safe (started c banks) }
{}

/// Whatever happens in a safe world, with a stop at any device call or none, leaves a safe world; and so do whole runs.
pub fn steps_keep_worlds_safe()
    ensures step { (w next : World) (event : Event) (x : Outcome)
        → Safe w → IsEvent w.banks event → WorldStep w event x next → Safe next }
    ensures run { (w last : World) (events : List Event) (xs : List Outcome)
        → Safe w → AllByRecursion (IsEvent w.banks) events → Run w events xs last → Safe last }
{}

/// What stands at each moment inside a step is a safe world: with the step's entry or without it, and with the first of its
/// frames, of which none is out before the entry is kept. So it is at each moment of a resume, however many of its frames are
/// out.
pub fn each_moment_of_a_step_is_safe()
    ensures host { (w : World) (act : Act) (step : HostStep) (kept : Bool) (n : ℕ)
        → Safe w → IsAct w.banks act → effect w act ≡ AtHost step → InOrder step kept n → Safe (host_lands w step kept n) }
    ensures bank { (w : World) (act : Act) (e : List ℕ) (step : BankStep) (kept : Bool) (n : ℕ)
        → Safe w → IsAct w.banks act → effect w act ≡ AtBank e step → BankInOrder step kept n → Safe (bank_lands w e step kept n) }
    ensures resume { (w : World) (n : ℕ) → Safe w → Safe (resume_lands w n) }
{}

/// What stands at each moment inside an event lies in a step of the world by that event, whatever stop it carries: the world
/// before it and that after it; a step with its entry or without it and with the first of its frames, where it came no further
/// than the call of the stop lets it; what a resume after a stop has sent; and what a restart has sent, and has sent again after
/// a stop of its own.
pub fn moments_lie_in_steps()
    ensures begin { (w : World) (event : Event) → LiesIn w event w }
    ensures end { (w next : World) (event : Event) (x : Outcome) → WorldStep w event x next → LiesIn w event next }
    ensures host { (w : World) (event : Event) (step : HostStep) (kept : Bool) (n : ℕ)
        → effect w event.act ≡ AtHost step → InOrder step kept n → IsUpTo (call_of event.stop) (is_some step.adds) kept n
        → LiesIn w event (host_lands w step kept n) }
    ensures bank { (w : World) (event : Event) (e : List ℕ) (step : BankStep) (kept : Bool) (n : ℕ)
        → effect w event.act ≡ AtBank e step → BankInOrder step kept n → IsUpTo (call_of event.stop) (is_some step.adds) kept n
        → LiesIn w event (bank_lands w e step kept n) }
    ensures resume { (w : World) (event : Event) (step : HostStep) (call : ℕ) (fate : Kept) (sent n : ℕ)
        → effect w event.act ≡ AtHost step → call_of event.stop ≡ Some call
        → StopsAt call (is_some step.adds) (length step.sends) fate sent
        → LiesIn w event (resume_lands (host_lands w step (is_kept fate) sent) n) }
    ensures restart { (w : World) (event : Event) (n : ℕ) → effect w event.act ≡ ResumesHost → LiesIn w event (resume_lands w n) }
    ensures again { (w : World) (event : Event) (call : ℕ) (fate : Kept) (sent n : ℕ)
        → effect w event.act ≡ ResumesHost → call_of event.stop ≡ Some call
        → ResumeStopsAt call (length (owed w)) (2 + length w.entries) fate sent
        → LiesIn w event (resume_lands (resume_lands w sent) n) }
{}

/// No step loses or changes what was there, whatever the event, and no run does. So an acknowledgement that was sent stands in
/// each later world of a safe one, with its verdict.
pub fn steps_lose_nothing()
    ensures step { (w next : World) (event : Event) (x : Outcome) → WorldStep w event x next → IsGrownFrom w next }
    ensures run { (w last : World) (events : List Event) (xs : List Outcome) → Run w events xs last → IsGrownFrom w last }
    ensures acks { (w last : World) (events : List Event) (xs : List Outcome) (f : Frame) (m : Content) (v : Verdict)
        → Safe w → AllByRecursion (IsEvent w.banks) events → Run w events xs last
        → IsSentAck w f m v → Acknowledges last.config last.entries v f m }
{}

/// There is a way for each event to go, whatever its stop, and where it carries none there is one way alone.
pub fn steps_can_go()
    ensures some { (w : World) (event : Event) → (x : Outcome) × (next : World) × WorldStep w event x next }
    ensures one { (w next other : World) (event : Event) (x y : Outcome)
        → event.stop ≡ None → WorldStep w event x next → WorldStep w event y other → (x ≡ y) × (next ≡ other) }
{}

/// What is promised of a safe world. No message is posted twice. Money is neither made nor lost, and no balance is lower than it
/// may be. What was ever sent reads as an acknowledgement or as an output. Each acknowledgement of a verdict stands, and of one
/// message no two verdicts were told. Each output is one of the list's, and their numbers have no gap. What a bank sent it drafted
/// or asked for, and what was posted from it is its draft. Its verdicts are the host's, and its inbox is the first of what the
/// host puts out to it.
pub fn safe_worlds_keep_the_promises()
    ensures posted_once { (w : World) → Safe w → PostsOnce w }
    ensures money { (w : World) → Safe w → KeepsMoney w }
    ensures floors { (w : World) → Safe w → KeepsFloors w }
    ensures messages { (w : World) → Safe w → SendsMessages w }
    ensures acks { (w : World) → Safe w → KeepsAcks w }
    ensures one_verdict { (w : World) → Safe w → TellsOneVerdict w }
    ensures outputs { (w : World) → Safe w → SendsOutputs w }
    ensures without_gaps { (w : World) → Safe w → NumbersWithoutGaps w }
    ensures from_banks { (w : World) (f : Frame) → Safe w → Contains w.to_host f → IsFromBank w f }
    ensures drafts { (w : World) (h : Head) (body : List ℕ) (resent : Bool) (moment : ℕ) (v : Verdict)
        → Safe w → Contains w.entries (Posted h body resent moment v) → HasBank w h.imad.source
        → IsDraftOf (w.books h.imad.source) h.imad body }
    ensures verdicts { (w : World) (e : List ℕ) → Safe w → HasBank w e → VerdictsStand w.entries (w.books e) }
    ensures inboxes { (w : World) (e : List ℕ) → Safe w → HasBank w e → InboxStands w.config w.entries e (w.books e) }
{}
