//! The addresses that a server listens at.
ghost use Rattle.std.specs.Prelude.{◌≡◌, ◌↔◌, IsTrue, MatchResult};
ghost use Rattle.xcp_program.specs.Hosts.{IsForMany};

use crate::fault::Fault;
use std::net::IpAddr;

/// No server listens at an address of many machines, to which no tool can connect: the system would let it. The fault is `Stream(0)`.
pub fn refuse_many(address: IpAddr) -> Result<(), Fault>
    ensures { MatchResult result (λ _. IsForMany address → ⊥) (λ e. IsForMany address × (e ≡ Fault.Stream 0)) }
{
    if is_for_many(address) {
        return Err(Fault::Stream(0));
    }
    Ok(())
}

/// Whether this is an address of many machines.
fn is_for_many(address: IpAddr) -> bool
    ensures { IsTrue result ↔ IsForMany address }
{
    match address {
        IpAddr::V4(address) => address.is_broadcast() || address.is_multicast(),
        IpAddr::V6(address) => address.is_multicast(),
    }
}
