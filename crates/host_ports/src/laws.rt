//! The laws of ports. The function does nothing: its contract is facts.
ghost use Rattle.std.specs.Prelude.{◌≡◌, ◌<◌, ℕ, Some, length, slice_index};
ghost use Rattle.ft_base.specs.declared.limits.TheConstants.{HOST_LIMIT};
ghost use Rattle.iogr_reference.specs.Choices.{port_of};
ghost use Rattle.host_ports.specs.Ports.{all_ports, host_at};

/// Every host has its port in the list of all, and is found by it.
pub fn every_host_has_a_port()
    ensures count { length all_ports ≡ HOST_LIMIT }
    ensures port { (host : ℕ) → host < HOST_LIMIT → slice_index all_ports host ≡ port_of host }
    ensures found { (host : ℕ) → host < HOST_LIMIT → host_at (port_of host) ≡ Some (record { 0 = host }) }
{}
