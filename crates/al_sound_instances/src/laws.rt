// Laws on the instances of adts.

ghost use Rattle.al_sound_instances.specs.Instances.{InstancesHaveTypes};

/// In the environment of a text without faults in its names each instance has a type.
pub fn instances_have_types()
    ensures { InstancesHaveTypes }
{}
