//! The values that are words: the styles, and the granularity of monitoring.
ghost use Rattle.std.specs.Prelude.{◌≡◌};
ghost use Rattle.property_manager.specs.Styles as words;

use ft_base::Style;

/// How a group's members share its work (chapter 23, `ReplicationStyleValue`).
#[derive(Clone, Copy, Debug, PartialEq, Eq)]
pub enum ReplicationStyle {
    Stateless,
    ColdPassive,
    WarmPassive,
    Active,
    ActiveWithVoting,
}

/// Who makes and removes a group's members (chapter 23, `MembershipStyleValue`).
#[derive(Clone, Copy, Debug, PartialEq, Eq)]
pub enum MembershipStyle {
    /// The application does.
    Application,
    /// The infrastructure does.
    Infrastructure,
}

/// Who keeps the states of a group's members consistent (chapter 23, `ConsistencyStyleValue`).
#[derive(Clone, Copy, Debug, PartialEq, Eq)]
pub enum ConsistencyStyle {
    /// The application does.
    Application,
    /// The infrastructure does.
    Infrastructure,
}

/// How a group's members are watched (chapter 23, `FaultMonitoringStyleValue`).
#[derive(Clone, Copy, Debug, PartialEq, Eq)]
pub enum FaultMonitoringStyle {
    /// They are asked.
    Pull,
    /// They tell by themselves.
    Push,
    NotMonitored,
}

/// Which of a group's members are watched (chapter 23, `FaultMonitoringGranularityValue`).
#[derive(Clone, Copy, Debug, PartialEq, Eq)]
pub enum FaultMonitoringGranularity {
    /// Each member.
    Member,
    /// One member of those at a location.
    Location,
    /// One member of those of a type at a location.
    LocationAndType,
}

impl ReplicationStyle {
    /// The style that a value is.
    #[tactic(auto, unfolding(crate::specs::Styles::replication_style))]
    pub fn of(text: &[u8]) -> Option<ReplicationStyle>
        ensures { result ≡ words.replication_style text.now }
    {
        if text == b"STATELESS".as_slice() {
            return Some(ReplicationStyle::Stateless);
        }
        if text == b"COLD_PASSIVE".as_slice() {
            return Some(ReplicationStyle::ColdPassive);
        }
        if text == b"WARM_PASSIVE".as_slice() {
            return Some(ReplicationStyle::WarmPassive);
        }
        if text == b"ACTIVE".as_slice() {
            return Some(ReplicationStyle::Active);
        }
        if text == b"ACTIVE_WITH_VOTING".as_slice() {
            return Some(ReplicationStyle::ActiveWithVoting);
        }
        None
    }

    /// The style as this product keeps groups; none for one that it doesn't support.
    pub fn supported(self) -> Option<Style>
        ensures { result ≡ words.supported_style self }
    {
        match self {
            ReplicationStyle::ColdPassive => Some(Style::Cold),
            ReplicationStyle::WarmPassive => Some(Style::Warm),
            ReplicationStyle::Active => Some(Style::Active),
            ReplicationStyle::Stateless => None,
            ReplicationStyle::ActiveWithVoting => None,
        }
    }
}

impl MembershipStyle {
    /// The style that a value is.
    #[tactic(auto, unfolding(crate::specs::Styles::membership_style))]
    pub fn of(text: &[u8]) -> Option<MembershipStyle>
        ensures { result ≡ words.membership_style text.now }
    {
        if text == b"MEMB_APP_CTRL".as_slice() {
            return Some(MembershipStyle::Application);
        }
        if text == b"MEMB_INF_CTRL".as_slice() {
            return Some(MembershipStyle::Infrastructure);
        }
        None
    }

    /// Whether a value says that the infrastructure makes and removes members.
    pub fn is_infrastructure(text: &[u8]) -> bool
        ensures { result ≡ words.is_infrastructure text.now }
    {
        match MembershipStyle::of(text) {
            None => false,
            Some(MembershipStyle::Application) => false,
            Some(MembershipStyle::Infrastructure) => true,
        }
    }
}

impl ConsistencyStyle {
    /// The style that a value is.
    #[tactic(auto, unfolding(crate::specs::Styles::consistency_style))]
    pub fn of(text: &[u8]) -> Option<ConsistencyStyle>
        ensures { result ≡ words.consistency_style text.now }
    {
        if text == b"CONS_APP_CTRL".as_slice() {
            return Some(ConsistencyStyle::Application);
        }
        if text == b"CONS_INF_CTRL".as_slice() {
            return Some(ConsistencyStyle::Infrastructure);
        }
        None
    }
}

impl FaultMonitoringStyle {
    /// The style that a value is.
    #[tactic(auto, unfolding(crate::specs::Styles::monitoring_style))]
    pub fn of(text: &[u8]) -> Option<FaultMonitoringStyle>
        ensures { result ≡ words.monitoring_style text.now }
    {
        if text == b"PULL".as_slice() {
            return Some(FaultMonitoringStyle::Pull);
        }
        if text == b"PUSH".as_slice() {
            return Some(FaultMonitoringStyle::Push);
        }
        if text == b"NOT_MONITORED".as_slice() {
            return Some(FaultMonitoringStyle::NotMonitored);
        }
        None
    }
}

impl FaultMonitoringGranularity {
    /// The granularity that a value is.
    #[tactic(auto, unfolding(crate::specs::Styles::granularity))]
    pub fn of(text: &[u8]) -> Option<FaultMonitoringGranularity>
        ensures { result ≡ words.granularity text.now }
    {
        if text == b"MEMB".as_slice() {
            return Some(FaultMonitoringGranularity::Member);
        }
        if text == b"LOC".as_slice() {
            return Some(FaultMonitoringGranularity::Location);
        }
        if text == b"LOC_AND_TYPE".as_slice() {
            return Some(FaultMonitoringGranularity::LocationAndType);
        }
        None
    }
}
