//! Where an area lies.
ghost use Rattle.std.specs.Prelude.{◌≡◌, ◌+◌, Some, None, IfOk, IfErr};
ghost use Rattle.xcp_memory.specs.ComputedAccess.{is_inside};
ghost use Rattle.xcp_packet.specs.Rows.{first_holding};
ghost use Rattle.xcp_memory.specs.Limits.{is_apart, signals_limits};
ghost use Rattle.xcp_memory.specs.LayoutParts.{number};

use crate::limits::LAST_ADDRESS;
use crate::{Class, Key, LayoutFault, checks};
use std::marker::Model;

/// Where an area lies: its first address, and how many bytes it has.
#[derive(Clone, Copy)]
pub(crate) struct Extent {
    address: u32,
    size: u32,
}

impl Model for Extent {
    ghost use Rattle.xcp_memory.specs.Layout.{Extent as ExtentValue};

    ghost Value = { ExtentValue };

    ghost view = { λ e. record { address = e.address; size = e.size } };

    ghost inverse = { λ e. record { address = e.address; size = e.size } };
}

impl Extent {
    ghost use Rattle.xcp_memory.specs.Layout.{Extent as ExtentValue};

    pub(crate) fn address(&self) -> u32
        ensures { result ≡ self.now.address }
    {
        self.address
    }

    pub(crate) fn size(&self) -> u32
        ensures { result ≡ self.now.size }
    {
        self.size
    }

    pub(crate) fn new(address: u32, size: u32) -> Extent
        ensures { result ≡ record { address = address; size = size } }
    {
        Extent { address, size }
    }

    /// Whether n bytes from an address on lie in the area. Sums of addresses don't wrap.
    pub(crate) fn is_inside(&self, address: u32, n: usize) -> bool
        ensures { result ≡ is_inside address n self.now }
    {
        let first = u64::from(address);
        self.address <= address && first <= self.end() && n as u64 <= self.end() - first
    }

    /// Whether no address lies in both areas.
    pub(crate) fn is_apart(&self, other: &Extent) -> bool
        ensures { result ≡ is_apart self.now other.now }
    {
        self.end() <= u64::from(other.address) || other.end() <= u64::from(self.address)
    }

    // The address behind the last one.
    fn end(&self) -> u64
        ensures { result ≡ self.now.address + self.now.size }
    {
        u64::from(self.address) + u64::from(self.size)
    }
}

/// Where the signals of a layout of this class lie.
pub(crate) fn read_signals(class: Class, address: i64, length: i64) -> Result<Extent, LayoutFault>
    ensures ok { IfOk result (λ e. (first_holding (signals_limits class address length) ≡ None) × (e ≡ record { address = number address; size = number length })) }
    ensures refused { IfErr result (λ e. first_holding (signals_limits class address length) ≡ Some e) }
{
    let first = checks::number(address, 0, LAST_ADDRESS, Key::SignalsAddress)?;
    let size = checks::number(length, 1, class.limits().signals, Key::SignalsLength)?;
    if size - 1 > LAST_ADDRESS - first {
        return Err(LayoutFault::Range(Key::SignalsAddress));
    }
    Ok(Extent::new(first, size))
}
