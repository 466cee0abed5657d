//! Laws of changes of a group's members. The functions do nothing: their contracts are facts.
ghost use Rattle.group_model.specs.Spares.{SparesAreHosts, SparesJoin};

/// Where spares have come, the members are ones that a view can have: at most 16, all different, each a host
/// that there can be.
pub fn spares_join()
    ensures members { SparesJoin }
    ensures hosts { SparesAreHosts }
{}
