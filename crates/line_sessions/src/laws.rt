// How sessions join, and what their moments say. Each call does nothing: its contract is the law.
ghost use Rattle.std.specs.Prelude.{◌≡◌, ◌≤◌, ◌++◌, ℕ, List, length, take};
ghost use Rattle.site_core.specs.Told.{Told};
ghost use Rattle.line_sessions.specs.Plays.{Part, IsMoment, Plays, PlaysOut, all_after, all_sent};

/// What takes part in sessions: what it keeps, what it takes from its line, and its part.
pub trait Playing {
    ghost Kept: { Type 0 };

    ghost Taken: { Type 0 };

    ghost part: { Part Kept Taken };
}

/// A session goes on where an earlier one came to its end, and both are one session.
pub fn sessions_join<P: Playing>()
    ensures part { (kept : P.Kept) (first more : List P.Taken) (a b c : Told)
        → PlaysOut P.part kept first a b → Plays P.part (all_after P.part kept first) more b c → Plays P.part kept (first ++ more) a c }
    ensures whole { (kept : P.Kept) (first more : List P.Taken) (a b c : Told)
        → PlaysOut P.part kept first a b → PlaysOut P.part (all_after P.part kept first) more b c → PlaysOut P.part kept (first ++ more) a c }
{}

/// At each moment what is kept is that after some first things of the session, and the frames that are out are the first
/// of all that the session sends.
pub fn each_moment_is_in_order<P: Playing>()
    ensures kept { (kept : P.Kept) (taken : List P.Taken) (before : List (List ℕ)) (image : List ℕ) (found : List (List ℕ))
        → IsMoment P.part kept taken before image found
        → (first : List P.Taken) × (later : List P.Taken) × (taken ≡ first ++ later) × P.part.Stands image (all_after P.part kept first) }
    ensures sent { (kept : P.Kept) (taken : List P.Taken) (before : List (List ℕ)) (image : List ℕ) (found : List (List ℕ))
        → IsMoment P.part kept taken before image found
        → (n : ℕ) × (n ≤ length (all_sent P.part kept taken)) × (found ≡ before ++ take n (all_sent P.part kept taken)) }
{}
