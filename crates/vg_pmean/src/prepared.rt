//! Entries made ready to run.

ghost use Rattle.std.specs.Prelude.{map};
ghost use Rattle.std.proofs.Props.{props};
ghost use Rattle.vg_script.proofs.Unique.{script_formed_once};
ghost use Rattle.vg_pmean.specs.Applied.{AreReady};

use crate::frames::Frames;
use crate::instance::Instance;

/// An entry made ready to run: its instances by rising immediates, from the least one on, and frames
/// for what they do. An entry that has no immediate has one instance.
#[derive(Drop)]
pub struct Prepared {
    pub(crate) least: Option<u8>,
    pub(crate) instances: Vec<Instance>,
    pub(crate) frames: Frames,
    ghost ready: { AreReady frames (map (λ i. i.whole) instances.items) } by { Prim.hlevel (props, script_formed_once) },
}
