//! What the values of a parameter or a measurement mean to tools.
ghost use Rattle.std.specs.Prelude.{◌≡◌, map, Some, None, true, false, IfOk, IfErr, option_map};
ghost use Rattle.toml.specs.View.{view};
ghost use Rattle.xcp_packet.specs.Rows.{first_holding};
ghost use Rattle.xcp_describe.specs.EntryFaults.{meaning_faults};
ghost use Rattle.xcp_describe.specs.EntryValues.{group_in, is_group, is_mask, mask_in};
ghost use Rattle.xcp_describe.specs.NumberNames.{pairs_in};
ghost use Rattle.xcp_describe.specs.private.EntriesRead.{type_named};

use crate::entry::is_name;
use crate::kind::Kind;
use crate::names::names_in;
use crate::refusal::Why;
use toml::Value;

/// What the values of an entry mean.
#[derive(Clone, Copy)]
pub(crate) struct Meaning<'a> {
    /// The mask of the bits that count, if not all do.
    pub(crate) bits: Option<u32>,
    /// Names for numbers: pairs of a number and its name.
    pub(crate) names: &'a [Value],
    /// The name of the group that the entry is in, if it is in one.
    pub(crate) group: Option<&'a str>,
}

impl<'a> Meaning<'a> {
    /// Nothing more than their numbers.
    pub(crate) fn plain() -> Meaning<'a> {
        Meaning {
            bits: None,
            names: &[],
            group: None,
        }
    }

    /// What a table says of the values of its entry, which has this type.
    pub(crate) fn read(table: &'a Value, kind: Kind) -> Result<Meaning<'a>, Why>
        ensures passes { IfOk result (λ _. first_holding (meaning_faults (type_named kind) (view table.now)) ≡ None) }
        ensures bits { IfOk result (λ m. m.bits ≡ mask_in (view table.now)) }
        ensures names { IfOk result (λ m. map view m.names.now ≡ pairs_in (view table.now)) }
        ensures group { IfOk result (λ m. option_map (λ s. s.now) m.group ≡ group_in (view table.now)) }
        ensures refused { IfErr result (λ e. first_holding (meaning_faults (type_named kind) (view table.now)) ≡ Some e) }
    {
        Ok(Meaning {
            bits: bits_in(table, kind)?,
            names: names_in(table, kind)?,
            group: group_in(table)?,
        })
    }
}

/// The mask of the bits that count, if it is given.
fn bits_in(table: &Value, kind: Kind) -> Result<Option<u32>, Why>
    ensures passes { IfOk result (λ _. is_mask (type_named kind) (view table.now) ≡ true) }
    ensures value { IfOk result (λ n. n ≡ mask_in (view table.now)) }
    ensures refused { IfErr result (λ e. (e ≡ Why.Bits) × (is_mask (type_named kind) (view table.now) ≡ false)) }
{
    let number = match table.get("bits") {
        Some(value) => value.as_integer().ok_or(Why::Bits)?,
        None => return Ok(None),
    };
    match u32::try_from(number) {
        Ok(bits) if 1 <= bits && bits <= kind.mask() => Ok(Some(bits)),
        _ => Err(Why::Bits),
    }
}

/// The name of the group that the entry is in, if it is given: an identifier of ASAP2.
fn group_in(table: &Value) -> Result<Option<&str>, Why>
    ensures passes { IfOk result (λ _. is_group (view table.now) ≡ true) }
    ensures value { IfOk result (λ g. option_map (λ s. s.now) g ≡ group_in (view table.now)) }
    ensures refused { IfErr result (λ e. (e ≡ Why.Group) × (is_group (view table.now) ≡ false)) }
{
    let group = match table.get("group") {
        Some(value) => value.as_str().ok_or(Why::Group)?,
        None => return Ok(None),
    };
    if is_name(group.as_bytes()) {
        Ok(Some(group))
    } else {
        Err(Why::Group)
    }
}
