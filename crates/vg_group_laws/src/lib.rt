//! Load groups and aligned store groups in other words than the lists that define them.
//!
//! `specs/Runs.antt` says what a run of loads is, `specs/Cuts.antt` how groups are cut from one,
//! `specs/Tiles.antt` what an aligned store group is, and `specs/Laws.antt` that the runs and groups of
//! `vg_kernel_plans` are these.
#![tactic(auto)]

mod law;

pub use law::{
    aligned_groups_are_tiles, aligned_groups_tile, first_loads_are_in_runs,
    groups_are_cut_from_runs, load_groups_are_apart, runs_cannot_be_longer,
};
