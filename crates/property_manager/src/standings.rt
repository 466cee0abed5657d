//! What a text is as the value of a property.
ghost use Rattle.std.specs.Prelude.{◌≡◌};
ghost use Rattle.property_manager.specs.Standings as standings;

use crate::host_lists::factories;
use crate::names::PropertyName;
use crate::numbers::{interval_and_timeout, number_of_replicas, number_of_ticks};
use crate::styles::{
    ConsistencyStyle, FaultMonitoringGranularity, FaultMonitoringStyle, MembershipStyle,
    ReplicationStyle,
};

/// What a text is as the value of a property.
#[derive(Clone, Copy, Debug, PartialEq, Eq)]
pub enum Standing {
    Supported,
    /// It is a value of the standard that this product doesn't support.
    Unsupported,
    /// It is no value of the property.
    Unlisted,
}

impl Standing {
    pub(crate) fn is_unlisted(self) -> bool
        ensures { result ≡ standings.is_unlisted self }
    {
        match self {
            Standing::Unlisted => true,
            Standing::Supported => false,
            Standing::Unsupported => false,
        }
    }

    pub(crate) fn is_unsupported(self) -> bool
        ensures { result ≡ standings.is_unsupported self }
    {
        match self {
            Standing::Unsupported => true,
            Standing::Supported => false,
            Standing::Unlisted => false,
        }
    }
}

fn listed(is_listed: bool) -> Standing
    ensures { result ≡ standings.listed is_listed }
{
    if is_listed {
        Standing::Supported
    } else {
        Standing::Unlisted
    }
}

fn of_replication_style(text: &[u8]) -> Standing
    ensures { result ≡ standings.of_replication_style text.now }
{
    match ReplicationStyle::of(text) {
        None => Standing::Unlisted,
        Some(style) => match style.supported() {
            None => Standing::Unsupported,
            Some(_style) => Standing::Supported,
        },
    }
}

fn of_membership_style(text: &[u8]) -> Standing
    ensures { result ≡ standings.of_membership_style text.now }
{
    match MembershipStyle::of(text) {
        None => Standing::Unlisted,
        Some(MembershipStyle::Application) => Standing::Supported,
        Some(MembershipStyle::Infrastructure) => Standing::Supported,
    }
}

fn of_consistency_style(text: &[u8]) -> Standing
    ensures { result ≡ standings.of_consistency_style text.now }
{
    match ConsistencyStyle::of(text) {
        None => Standing::Unlisted,
        Some(ConsistencyStyle::Application) => Standing::Unsupported,
        Some(ConsistencyStyle::Infrastructure) => Standing::Supported,
    }
}

fn of_monitoring_style(text: &[u8]) -> Standing
    ensures { result ≡ standings.of_monitoring_style text.now }
{
    match FaultMonitoringStyle::of(text) {
        None => Standing::Unlisted,
        Some(FaultMonitoringStyle::Pull) => Standing::Supported,
        Some(FaultMonitoringStyle::Push) => Standing::Unsupported,
        Some(FaultMonitoringStyle::NotMonitored) => Standing::Supported,
    }
}

fn of_granularity(text: &[u8]) -> Standing
    ensures { result ≡ standings.of_granularity text.now }
{
    match FaultMonitoringGranularity::of(text) {
        None => Standing::Unlisted,
        Some(FaultMonitoringGranularity::Member) => Standing::Supported,
        Some(FaultMonitoringGranularity::Location) => Standing::Unsupported,
        Some(FaultMonitoringGranularity::LocationAndType) => Standing::Unsupported,
    }
}

fn of_factories(text: &[u8]) -> Standing
    ensures { result ≡ standings.of_factories text.now }
{
    listed(factories(text).is_some())
}

fn of_replicas(text: &[u8]) -> Standing
    ensures { result ≡ standings.of_replicas text.now }
{
    listed(number_of_replicas(text).is_some())
}

fn of_interval(text: &[u8]) -> Standing
    ensures { result ≡ standings.of_interval text.now }
{
    listed(interval_and_timeout(text).is_some())
}

fn of_ticks(text: &[u8]) -> Standing
    ensures { result ≡ standings.of_ticks text.now }
{
    listed(number_of_ticks(text).is_some())
}

/// What a text is as the value of a property.
#[tactic(auto, unfolding(crate::specs::Standings::standing_of))]
pub fn standing_of(name: PropertyName, text: &[u8]) -> Standing
    ensures { result ≡ standings.standing_of name text.now }
{
    match name {
        PropertyName::ReplicationStyle => of_replication_style(text),
        PropertyName::MembershipStyle => of_membership_style(text),
        PropertyName::ConsistencyStyle => of_consistency_style(text),
        PropertyName::FaultMonitoringStyle => of_monitoring_style(text),
        PropertyName::FaultMonitoringGranularity => of_granularity(text),
        PropertyName::Factories => of_factories(text),
        PropertyName::InitialNumberReplicas => of_replicas(text),
        PropertyName::MinimumNumberReplicas => of_replicas(text),
        PropertyName::FaultMonitoringIntervalAndTimeout => of_interval(text),
        PropertyName::CheckpointInterval => of_ticks(text),
    }
}
