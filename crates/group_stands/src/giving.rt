//! What one host gives another. The functions do nothing: their contracts are facts.
ghost use Rattle.group_stands.specs.Giving.{ReplicasGiveStates, ReplicasGiveUpdates, ReplicasLeadOn, GivenStatesStay, GivenUpdatesStay, GivenStatesAreStates, GivenStatesLoad, GivenUpdatesLead};

use ft_base::replies_are_given;

/// What a replica gives: its state, and its update, behind which its base is where it is.
pub fn replicas_give()
    ensures state { ReplicasGiveStates }
    ensures update { ReplicasGiveUpdates }
    ensures leads { ReplicasLeadOn }
{}

/// What was given stays what it is while the group grows.
pub fn what_is_given_stays()
    ensures state { GivenStatesStay }
    ensures update { GivenUpdatesStay }
{}

/// Where a replica is that was given a state or an update.
pub fn given_states_stand()
    ensures state { GivenStatesAreStates }
    ensures loaded { GivenStatesLoad }
    ensures updated { GivenUpdatesLead }
{
    replies_are_given();
}
