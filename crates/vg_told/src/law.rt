//! The law on what calls give.

ghost use Rattle.vg_told.specs.Told.{CatalogsAreTold};

use vg_names::resolved_operations_are_proper;

/// Of the entries of a catalogue: each instance all of whose lanes have terms is told by them, for every
/// immediate that it may be called with.
pub fn catalogs_are_told()
    ensures { CatalogsAreTold }
{
    resolved_operations_are_proper();
}
