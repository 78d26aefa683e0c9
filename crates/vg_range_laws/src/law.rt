//! Which accepted instances have terms for their lanes.

ghost use Rattle.vg_range_laws.specs.StaticInstances.{InstancesAreStatic};

/// A law that costs nothing to call: the script of an accepted instance that is not dynamic is
/// static, so no slice and no shift of it depends on data.
pub fn instances_are_static()
    ensures { InstancesAreStatic }
{}
