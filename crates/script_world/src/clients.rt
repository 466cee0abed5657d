//! The clients of a world, found by their names in a map.
ghost use Rattle.std.specs.Prelude.{◌≡◌, ◌<◌, [], ◌∷◌, ◌++◌, Some, None, length, slice_get, slice_set, IfOk, OnErr, OnOk, option_copied};
ghost use Rattle.std.specs.List.{list_any};
ghost use Rattle.std.specs.Str.{bytes_eq};
ghost use Rattle.script_clients.specs.Clients.{Client, binding, failing, hearing, taking};
ghost use Rattle.script_groups.specs.Groups.{found};
ghost use Rattle.script_world.specs.Worlds.{CanStart, IsPlace, begin};

use crate::worlds::Begun;
use client_retry::Heard;
use ft_base::{GroupId, Name, NoMemory, Tick};
use iogr_reference::GroupRef;
use name_places::NamePlaces;
use script_clients::{ScriptClient, Told};
use std::alloc::Global;
use std::marker::Model;

/// The clients in the order in which they were made, with a map of their names: each line that names one looks
/// it up.
#[derive(Drop)]
pub(crate) struct Clients {
    items: Vec<ScriptClient>,
    places: NamePlaces,
}

impl Model for Clients {
    ghost use Rattle.std.specs.Prelude.{List};
    ghost use Rattle.script_clients.specs.Clients.{Client};
    ghost use Rattle.name_places.specs.Places.{ArePlaces};
    ghost use Rattle.script_world.specs.Names.{names_of};

    ghost Value = { List Client };

    ghost view = { λ a. a.items.items };

    ghost invariant = { λ a. ArePlaces a.places (names_of a.items.items) };
}

impl Clients {
    pub(crate) fn new(alloc: Global) -> Clients
        ensures { result ≡ [] }
    {
        Clients {
            items: Vec::new(alloc),
            places: NamePlaces::new(alloc),
        }
    }

    pub(crate) fn len(&self) -> usize
        ensures { result ≡ length self.now }
    {
        self.items.len()
    }

    /// The client at this place.
    pub(crate) fn at(&self, place: usize) -> &ScriptClient
        requires { place < length self.now }
        ensures { slice_get self.now place ≡ Some result.now }
    {
        &self.items[place]
    }

    /// The client at this place, if there is one.
    pub(crate) fn get(&self, place: usize) -> Option<&ScriptClient>
        ensures { option_copied result ≡ slice_get self.now place }
    {
        self.items.get(place)
    }

    /// The place of the client with this name.
    pub(crate) fn place(&self, name: &Name) -> Option<usize>
        ensures { IsPlace (found (λ (c : Client). bytes_eq c.name name.now) 0 self.now) self.now result }
    {
        self.places.place(name)
    }

    /// Whether a client has this name.
    pub(crate) fn has(&self, name: &Name) -> bool
        ensures { result ≡ list_any (λ (c : Client). bytes_eq c.name name.now) self.now }
    {
        self.place(name).is_some()
    }

    /// One more client, behind all others. Its name is filed last of all that may want memory, so the map never
    /// has a name of which there is no client.
    pub(crate) fn add(&mut self, alloc: Global, client: ScriptClient) -> Result<(), NoMemory>
        ensures added { OnOk result (self.new ≡ self.old ++ client ∷ []) }
        ensures left { OnErr result (self.new ≡ self.old) }
    {
        self.items.reserve(1)?;
        self.places.reserve(alloc, client.name())?;
        self.places.add_reserved(self.items.len());
        self.items.push(client).unwrap();
        Ok(())
    }

    /// The client at this place gives away its reference of a group, if it has one.
    pub(crate) fn take_reference(
        &mut self,
        place: usize,
        group: GroupId,
    ) -> Result<Option<GroupRef>, NoMemory>
        requires within { place < length self.old }
        requires idle { (c : Client) → slice_get self.old place ≡ Some c → c.call ≡ None }
        ensures { (c : Client) → slice_get self.old place ≡ Some c →
            IfOk result (λ reference. (reference ≡ (taking c group).reference) × (self.new ≡ slice_set self.old place (taking c group).client)) }
    {
        let client = &mut self.items[place];
        client.take_reference(group)
    }

    /// The client at this place begins an invocation.
    pub(crate) fn start(
        &mut self,
        alloc: Global,
        place: usize,
        begun: Begun,
    ) -> Result<Told, NoMemory>
        requires within { place < length self.old }
        requires idle { (c : Client) → slice_get self.old place ≡ Some c → (c.call ≡ None) × CanStart c }
        ensures { (c : Client) → slice_get self.old place ≡ Some c →
            IfOk result (λ told. (told ≡ (begin c begun).told) × (self.new ≡ slice_set self.old place (begin c begun).client)) }
    {
        let Begun {
            reference,
            expiration,
            numbers,
            versioned,
            request,
        } = begun;
        let client = &mut self.items[place];
        client.start(alloc, reference, expiration, numbers, versioned, request)
    }

    /// A reply comes to the client at this place, now.
    pub(crate) fn hear(
        &mut self,
        alloc: Global,
        place: usize,
        id: u32,
        heard: Heard,
        now: Tick,
    ) -> Result<Told, NoMemory>
        requires { place < length self.old }
        ensures { (c : Client) → slice_get self.old place ≡ Some c →
            IfOk result (λ told. (told ≡ (hearing c id heard now).told) × (self.new ≡ slice_set self.old place (hearing c id heard now).client)) }
    {
        let client = &mut self.items[place];
        client.hear(alloc, id, heard, now)
    }

    /// The client at this place goes by this reference for its group from now on, between two invocations.
    pub(crate) fn bind(&mut self, place: usize, reference: GroupRef) -> Result<(), NoMemory>
        requires within { place < length self.old }
        requires idle { (c : Client) → slice_get self.old place ≡ Some c → c.call ≡ None }
        ensures { (c : Client) → slice_get self.old place ≡ Some c → OnOk result (self.new ≡ slice_set self.old place (binding c reference)) }
    {
        let client = &mut self.items[place];
        client.bind(reference)
    }

    /// Now it is known that the last attempt of the client at this place gets no reply.
    pub(crate) fn fault(&mut self, alloc: Global, place: usize, now: Tick) -> Result<Told, NoMemory>
        requires { place < length self.old }
        ensures { (c : Client) → slice_get self.old place ≡ Some c →
            IfOk result (λ told. (told ≡ (failing c now).told) × (self.new ≡ slice_set self.old place (failing c now).client)) }
    {
        let client = &mut self.items[place];
        client.fault(alloc, now)
    }
}
