//! The laws of the clients of a script. The function does nothing: its contract is facts.
ghost use Rattle.script_clients.specs.Laws.{IdsBegin, IdsGoOn, IdsStay};

/// Each attempt has the id one above the client's last, and nothing but an attempt moves the last: so over
/// all of its invocations, of whatever groups, a client uses no id twice, and leaves none out.
pub fn ids_go_on()
    ensures started { IdsBegin }
    ensures went_on { IdsGoOn }
    ensures taken { IdsStay }
{
    client_retry::ids_go_on();
}
