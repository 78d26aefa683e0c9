//! Which numbers are those of instances.

ghost use Rattle.std.specs.Prelude.{◌↔◌, IsTrue};
ghost use Rattle.vg_range.specs.Checks.{header_in};
ghost use Rattle.vg_lift.specs.Instances.{HasInstance};

use vg_range::Checked;
use vg_range::unrolling::{has_instance, immediate_of};

/// Whether an entry has an instance for this number.
pub fn is_instance(entry: &Checked, imm: u8) -> bool
    ensures { IsTrue result ↔ HasInstance (header_in entry.now) imm }
{
    let range = &entry.header().imm;
    has_instance(range, immediate_of(range, imm))
}
