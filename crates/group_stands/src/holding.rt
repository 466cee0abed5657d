//! How orders that a host holds back stand for its group. The functions do nothing: their contracts are
//! facts.
ghost use Rattle.group_stands.specs.Holding.{NothingIsHeld, HoldbacksGoOn, HoldbacksGoOnJoined, HoldbacksGoOnRan, HoldbacksAreDropped, FurthestHoldNothing, OrdersAreHeld, HoldbacksTell, HeldAreOrdered, OrdersFit, OrdersRun};

/// How a holdback begins and goes on: while others work, where its host runs on, and where one order more is
/// held; and what it tells.
pub fn holdbacks_go_on()
    ensures empty { NothingIsHeld }
    ensures stays { HoldbacksGoOn }
    ensures joined { HoldbacksGoOnJoined }
    ensures ran { HoldbacksGoOnRan }
    ensures dropped { HoldbacksAreDropped }
    ensures furthest { FurthestHoldNothing }
    ensures held { OrdersAreHeld }
    ensures tell { HoldbacksTell }
    ensures ordered { HeldAreOrdered }
{}

/// What a replica makes of an order of the entry at its position.
pub fn orders_run()
    ensures fit { OrdersFit }
    ensures run { OrdersRun }
{}
