//! Laws. The functions do nothing: their contracts are facts.
ghost use Rattle.link_session.specs.References.{ViewReferencesCanBeSent};

/// The reference of a view can be written in either byte order, and is short enough for a reply.
pub fn view_references_can_be_sent()
    ensures { ViewReferencesCanBeSent }
{}
