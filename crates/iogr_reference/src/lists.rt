ghost use Rattle.std.specs.Prelude.{◌≡◌, ◌≤◌, length};

use crate::choices::PROFILE_LIMIT;
use crate::references::{Component, Iiop, Profile};
use std::marker::Model;

/// Profiles, in the reference's order.
#[derive(Drop)]
pub struct Profiles {
    profiles: Vec<Profile>,
}

impl Model for Profiles {
    ghost use Rattle.std.specs.Prelude.{List};
    ghost use Rattle.iogr_reference.specs.declared.references.Profile.{Profile};

    ghost Value = { List Profile };

    ghost view = { λ p. p.profiles.items };
}

/// Components, in the profile's order.
#[derive(Drop)]
pub struct Components {
    components: Vec<Component>,
}

impl Model for Components {
    ghost use Rattle.std.specs.Prelude.{List};
    ghost use Rattle.iogr_reference.specs.declared.references.Component.{Component};

    ghost Value = { List Component };

    ghost view = { λ c. c.components.items };
}

impl Profiles {
    /// The profiles of a vector. It takes no memory.
    pub fn from_vec(profiles: Vec<Profile>) -> Profiles
        ensures { result ≡ profiles.items }
    {
        Profiles { profiles }
    }

    /// The profiles themselves.
    pub fn as_slice(&self) -> &[Profile]
        ensures { result.now ≡ self.now }
    {
        self.profiles.as_slice()
    }
}

impl Components {
    /// The components of a vector. It takes no memory.
    pub fn from_vec(components: Vec<Component>) -> Components
        ensures { result ≡ components.items }
    {
        Components { components }
    }

    /// The components themselves.
    pub fn as_slice(&self) -> &[Component]
        ensures { result.now ≡ self.now }
    {
        self.components.as_slice()
    }
}

/// What the IIOP profiles of a reference hold, at most 65,535, in order.
#[derive(Drop)]
pub struct IiopList {
    profiles: Vec<Iiop>,
}

impl Model for IiopList {
    ghost use Rattle.std.specs.Prelude.{◌≤◌, List, length};
    ghost use Rattle.iogr_reference.specs.declared.choices.TheConstants.{PROFILE_LIMIT};
    ghost use Rattle.iogr_reference.specs.declared.references.Iiop.{Iiop};

    ghost Value = { List Iiop };

    ghost view = { λ p. p.profiles.items };

    ghost invariant = { λ p. length p.profiles.items ≤ PROFILE_LIMIT };
}

impl IiopList {
    /// The list of a vector. It takes no memory.
    pub fn from_vec(profiles: Vec<Iiop>) -> IiopList
        requires { length profiles.items ≤ PROFILE_LIMIT }
        ensures { result ≡ profiles.items }
    {
        IiopList { profiles }
    }

    /// The list itself.
    pub fn as_slice(&self) -> &[Iiop]
        ensures value { result.now ≡ self.now }
        ensures limit { length self.now ≤ PROFILE_LIMIT }
    {
        self.profiles.as_slice()
    }
}

/// The ports of hosts, by the host's number.
#[derive(Drop)]
pub struct Ports {
    ports: Vec<u16>,
}

impl Model for Ports {
    ghost use Rattle.std.specs.Prelude.{ℕ, List};

    ghost Value = { List ℕ };

    ghost view = { λ p. p.ports.items };
}

impl Ports {
    /// The ports of a vector. It takes no memory.
    pub fn from_vec(ports: Vec<u16>) -> Ports
        ensures { result ≡ ports.items }
    {
        Ports { ports }
    }

    /// The ports themselves.
    pub fn as_slice(&self) -> &[u16]
        ensures { result.now ≡ self.now }
    {
        self.ports.as_slice()
    }
}
