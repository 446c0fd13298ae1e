//! What a host does with frames that arrive together, as mathematics: its steps over them, one after another.
#![tactic(auto)]

mod laws;

pub use laws::{
    groups_are_told, groups_go_frame_by_frame, groups_stay_sound, sessions_over_groups,
};
