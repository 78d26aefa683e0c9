//! A kernel and a program with loads more that nothing uses, so that both load a byte equally often which no store
//! of the kernel may touch. A compiler loads a row four times where the kernel names each number once; the kernel
//! then makes its own load once more, and a program that loads a byte less often loads it once more, both at
//! their ends.
//!
//! `specs/Levelled.antt` says what is added, and what the first wider difference of the two is then; the laws of
//! `specs/Laws.antt` that this changes no meaning and stays valid. [`loads_to_add`] finds what is added, by
//! `specs/Adding.antt` event by event, and [`verify_levelled`] compares the two with it, by `specs/Verified.antt`.
//! An `AllocError` is want of memory, also at the bounds of `vg_verify`.
#![tactic(auto)]

mod added;
mod adding;
mod law;
mod loads;
mod met;
mod numbered;
mod sides;
mod verifying;

pub use added::{Added, loads_to_add};
pub use law::{added_can_be_numbered, added_keeps_rules, levelled_means};
pub use verifying::verify_levelled;
