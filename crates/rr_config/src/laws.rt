//! The laws of configurations, as functions with empty bodies.
ghost use Rattle.rr_config.specs.Laws.{ConfigsAreOfTheirKeys, ConfigsAreWithinLimits, NodeConfigsAreOfTheirKeys, NodeConfigsAreWithinLimits};

/// Whatever a text says, a configuration that isn't refused has 1 to 16 fetch addresses, and where
/// it limits a wait, it is from a second to a day.
pub fn configs_are_within_limits()
    ensures { ConfigsAreWithinLimits }
{}

/// Two tables with the same values at the keys of a configuration give the same configuration, or
/// the same refusal, whatever else they have and in whatever order.
pub fn configs_are_of_their_keys()
    ensures { ConfigsAreOfTheirKeys }
{}

/// Whatever a text says, a node's configuration that isn't refused has a range of origins from 1 to
/// 65,535 with at least one in it, waits from a second to a day, and has 1 to 14 readers.
pub fn node_configs_are_within_limits()
    ensures { NodeConfigsAreWithinLimits }
{}

/// Two tables with the same values at the keys of a node's configuration give the same one, or the
/// same refusal, whatever else they have and in whatever order.
pub fn node_configs_are_of_their_keys()
    ensures { NodeConfigsAreOfTheirKeys }
{}
