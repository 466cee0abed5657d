ghost use Rattle.std.specs.Prelude.{◌≡◌, ◌<◌, ◌^◌, None, length};
ghost use Rattle.ft_base.specs.Text.{name_refusal};
ghost use Rattle.property_manager.specs.Names.{all, built_in, named, text_of};

/// One of the ten properties (chapter 23, "Fault Tolerance Properties").
#[derive(Clone, Copy, Debug, PartialEq, Eq)]
pub enum PropertyName {
    ReplicationStyle,
    MembershipStyle,
    ConsistencyStyle,
    FaultMonitoringStyle,
    FaultMonitoringGranularity,
    Factories,
    InitialNumberReplicas,
    MinimumNumberReplicas,
    FaultMonitoringIntervalAndTimeout,
    CheckpointInterval,
}

/// All properties, in the standard's order.
const ALL: [PropertyName; 10] = [
    PropertyName::ReplicationStyle,
    PropertyName::MembershipStyle,
    PropertyName::ConsistencyStyle,
    PropertyName::FaultMonitoringStyle,
    PropertyName::FaultMonitoringGranularity,
    PropertyName::Factories,
    PropertyName::InitialNumberReplicas,
    PropertyName::MinimumNumberReplicas,
    PropertyName::FaultMonitoringIntervalAndTimeout,
    PropertyName::CheckpointInterval,
];

impl PropertyName {
    /// All properties, in the standard's order.
    pub fn all() -> [PropertyName; 10]
        ensures { result ≡ all }
    {
        ALL
    }

    /// The property's name.
    #[tactic(auto, unfolding(crate::specs::Names::text_of))]
    pub fn text(self) -> &'static [u8]
        ensures value { result.now ≡ text_of self }
        ensures short { length result.now < 2 ^ 32 }
        ensures name { name_refusal result.now ≡ None }
    {
        match self {
            PropertyName::ReplicationStyle => b"org.omg.ft.ReplicationStyle",
            PropertyName::MembershipStyle => b"org.omg.ft.MembershipStyle",
            PropertyName::ConsistencyStyle => b"org.omg.ft.ConsistencyStyle",
            PropertyName::FaultMonitoringStyle => b"org.omg.ft.FaultMonitoringStyle",
            PropertyName::FaultMonitoringGranularity => b"org.omg.ft.FaultMonitoringGranularity",
            PropertyName::Factories => b"org.omg.ft.Factories",
            PropertyName::InitialNumberReplicas => b"org.omg.ft.InitialNumberReplicas",
            PropertyName::MinimumNumberReplicas => b"org.omg.ft.MinimumNumberReplicas",
            PropertyName::FaultMonitoringIntervalAndTimeout => {
                b"org.omg.ft.FaultMonitoringIntervalAndTimeout"
            }
            PropertyName::CheckpointInterval => b"org.omg.ft.CheckpointInterval",
        }
    }

    /// The value where no level sets it.
    #[tactic(auto, unfolding(crate::specs::Names::built_in))]
    pub fn built_in(self) -> &'static [u8]
        ensures { result.now ≡ built_in self }
    {
        match self {
            PropertyName::ReplicationStyle => b"COLD_PASSIVE",
            PropertyName::MembershipStyle => b"MEMB_APP_CTRL",
            PropertyName::ConsistencyStyle => b"CONS_INF_CTRL",
            PropertyName::FaultMonitoringStyle => b"PULL",
            PropertyName::FaultMonitoringGranularity => b"MEMB",
            PropertyName::Factories => b"-",
            PropertyName::InitialNumberReplicas => b"1",
            PropertyName::MinimumNumberReplicas => b"1",
            PropertyName::FaultMonitoringIntervalAndTimeout => b"10/5",
            PropertyName::CheckpointInterval => b"100",
        }
    }

    /// The property with this name.
    #[tactic(auto, unfolding(crate::specs::Names::named))]
    pub fn named(text: &[u8]) -> Option<PropertyName>
        ensures { result ≡ named text.now }
    {
        if text == PropertyName::ReplicationStyle.text() {
            return Some(PropertyName::ReplicationStyle);
        }
        if text == PropertyName::MembershipStyle.text() {
            return Some(PropertyName::MembershipStyle);
        }
        if text == PropertyName::ConsistencyStyle.text() {
            return Some(PropertyName::ConsistencyStyle);
        }
        if text == PropertyName::FaultMonitoringStyle.text() {
            return Some(PropertyName::FaultMonitoringStyle);
        }
        if text == PropertyName::FaultMonitoringGranularity.text() {
            return Some(PropertyName::FaultMonitoringGranularity);
        }
        if text == PropertyName::Factories.text() {
            return Some(PropertyName::Factories);
        }
        if text == PropertyName::InitialNumberReplicas.text() {
            return Some(PropertyName::InitialNumberReplicas);
        }
        if text == PropertyName::MinimumNumberReplicas.text() {
            return Some(PropertyName::MinimumNumberReplicas);
        }
        if text == PropertyName::FaultMonitoringIntervalAndTimeout.text() {
            return Some(PropertyName::FaultMonitoringIntervalAndTimeout);
        }
        if text == PropertyName::CheckpointInterval.text() {
            return Some(PropertyName::CheckpointInterval);
        }
        None
    }
}
