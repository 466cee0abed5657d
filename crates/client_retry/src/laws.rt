//! The laws of clients. The functions do nothing: their contracts are facts.
ghost use Rattle.client_retry.specs.Laws.{IdsBegin, IdsGoOn, IdsStay, HasReference, ReferenceStays};

/// Each attempt has the id one above the client's last, and nothing but an attempt moves the last: so over
/// all of its invocations a client uses no id twice, and leaves none out.
pub fn ids_go_on()
    ensures started { IdsBegin }
    ensures heard { IdsGoOn }
    ensures set_down { IdsStay }
{}

/// A client that starts has a reference, and what it hears takes none from it.
pub fn references_stay()
    ensures started { HasReference }
    ensures heard { ReferenceStays }
{}
