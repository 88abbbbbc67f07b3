//! The parameters and measurements of a layout file.
ghost use Rattle.std.specs.Prelude.{◌≡◌, ◌++◌, [], ◌∷◌, map, Some, None, true, false, IfOk, IfErr, MatchOption, option_map};
ghost use Rattle.std.specs.List.{flat_map, enumerate_from};
ghost use Rattle.toml.specs.Data.{get};
ghost use Rattle.toml.specs.View.{view};
ghost use Rattle.xcp_packet.specs.Rows.{first_holding};
ghost use Rattle.xcp_config.specs.TomlValues.{members_of};
ghost use Rattle.xcp_describe.specs.EntryFaults.{axes_checks, first_refusal, measurement_checks, measurement_faults, measurements_checks, parameter_checks, parameter_faults, parameters_checks, parameters_in};
ghost use Rattle.xcp_describe.specs.Axes.{form_of};
ghost use Rattle.xcp_describe.specs.EntryValues.{event_number, group_in, is_array_or_none, mask_in, name_of};
ghost use Rattle.xcp_describe.specs.NumberNames.{pairs_in};
ghost use Rattle.xcp_describe.specs.UnreadKeys.{is_key_among};
ghost use Rattle.xcp_describe.specs.private.EntriesRead.{form_read, forms_of, names_of};
ghost use Rattle.xcp_describe.specs.private.Refusals.{IsEntryOrMemory, RefusesEntry};

use crate::entry::{Entry, event_in};
use crate::meaning::Meaning;
use crate::refusal::{DescribeError, Why};
use std::alloc::Global;
use toml::Value;
use xcp_memory::Layout;
use xcp_program::Fault;

/// All parameters and measurements, each in the order of the file.
#[derive(Drop)]
pub(crate) struct Tables<'a> {
    pub(crate) parameters: Vec<Entry<'a>>,
    pub(crate) measurements: Vec<Entry<'a>>,
}

impl<'a> Tables<'a> {
    /// Those of a layout file, in this layout: the parameters first. The first entry with a fault is refused.
    pub(crate) fn read(
        alloc: Global,
        document: &'a Value,
        layout: &Layout,
    ) -> Result<Tables<'a>, DescribeError>
        ensures passes { IfOk result (λ _. first_refusal layout.now (view document.now) ≡ None) }
        ensures refused { IfErr result IsEntryOrMemory }
        ensures first { IfErr result (λ e. RefusesEntry (first_refusal layout.now (view document.now)) e) }
    {
        let parameters = read_parameters(alloc, document, layout)?;
        let measurements = read_measurements(alloc, document, layout, parameters.as_slice())?;
        Ok(Tables {
            parameters,
            measurements,
        })
    }
}

/// The parameters of a layout file.
#[tactic(auto, unfolding(crate::specs::EntryFaults::parameters_checks))]
fn read_parameters<'a>(
    alloc: Global,
    document: &'a Value,
    layout: &Layout,
) -> Result<Vec<Entry<'a>>, DescribeError>
    ensures passes { IfOk result (λ _. first_holding (parameters_checks layout.now (view document.now)) ≡ None) }
    ensures names { IfOk result (λ es. names_of es.items ≡ map name_of (parameters_in (view document.now))) }
    ensures refused { IfErr result (λ e. RefusesEntry (first_holding (parameters_checks layout.now (view document.now))) e) }
{
    let Some(members) = members_in(document, "parameter") else {
        return Err(DescribeError::Parameter(0, Why::Table));
    };
    let parameters = each_parameter(alloc, members, layout)?;
    check_axes(parameters.as_slice())?;
    Ok(parameters)
}

/// The parameters that these tables describe.
fn each_parameter<'a>(
    alloc: Global,
    members: &'a [Value],
    layout: &Layout,
) -> Result<Vec<Entry<'a>>, DescribeError>
    ensures passes { IfOk result (λ _. first_holding (flat_map (parameter_checks layout.now (map view members.now)) (enumerate_from 0 (map view members.now))) ≡ None) }
    ensures names { IfOk result (λ es. names_of es.items ≡ map name_of (map view members.now)) }
    ensures forms { IfOk result (λ es. forms_of es.items ≡ map form_of (map view members.now)) }
    ensures refused { IfErr result (λ e. RefusesEntry (first_holding (flat_map (parameter_checks layout.now (map view members.now)) (enumerate_from 0 (map view members.now)))) e) }
{
    let mut entries = Vec::new(alloc);
    for (i, member) in members.iter().enumerate() {
        match parameter(member, layout, entries.as_slice()) {
            Ok(entry) => keep(&mut entries, entry)?,
            Err(why) => return Err(DescribeError::Parameter(i, why)),
        }
    }
    Ok(entries)
}

/// Looks at the axes of these parameters, each of which may be one of another. The first parameter with a fault is refused.
fn check_axes(parameters: &[Entry<'_>]) -> Result<(), DescribeError>
    ensures passes { IfOk result (λ _. first_holding (axes_checks (forms_of parameters.now)) ≡ None) }
    ensures refused { IfErr result (λ e. RefusesEntry (first_holding (axes_checks (forms_of parameters.now))) e) }
{
    for (i, parameter) in parameters.iter().enumerate() {
        if !parameter.has_axes(parameters) {
            return Err(DescribeError::Parameter(i, Why::Axis));
        }
    }
    Ok(())
}

/// The measurements of a layout file that has these parameters.
#[tactic(auto, unfolding(crate::specs::EntryFaults::measurements_checks))]
fn read_measurements<'a>(
    alloc: Global,
    document: &'a Value,
    layout: &Layout,
    parameters: &[Entry<'_>],
) -> Result<Vec<Entry<'a>>, DescribeError>
    requires { names_of parameters.now ≡ map name_of (parameters_in (view document.now)) }
    ensures passes { IfOk result (λ _. first_holding (measurements_checks layout.now (view document.now)) ≡ None) }
    ensures refused { IfErr result (λ e. RefusesEntry (first_holding (measurements_checks layout.now (view document.now))) e) }
{
    match members_in(document, "measurement") {
        Some(members) => each_measurement(alloc, members, layout, parameters),
        None => Err(DescribeError::Measurement(0, Why::Table)),
    }
}

/// The measurements that these tables describe, behind these parameters.
fn each_measurement<'a>(
    alloc: Global,
    members: &'a [Value],
    layout: &Layout,
    parameters: &[Entry<'_>],
) -> Result<Vec<Entry<'a>>, DescribeError>
    ensures passes { IfOk result (λ _. first_holding (flat_map (measurement_checks layout.now (names_of parameters.now) (map view members.now)) (enumerate_from 0 (map view members.now))) ≡ None) }
    ensures refused { IfErr result (λ e. RefusesEntry (first_holding (flat_map (measurement_checks layout.now (names_of parameters.now) (map view members.now)) (enumerate_from 0 (map view members.now)))) e) }
{
    let mut entries = Vec::new(alloc);
    for (i, member) in members.iter().enumerate() {
        match measurement(member, layout, parameters, entries.as_slice()) {
            Ok(entry) => keep(&mut entries, entry)?,
            Err(why) => return Err(DescribeError::Measurement(i, why)),
        }
    }
    Ok(entries)
}

/// The parameter that a table describes, behind these.
fn parameter<'a>(
    member: &'a Value,
    layout: &Layout,
    earlier: &[Entry<'_>],
) -> Result<Entry<'a>, Why>
    ensures passes { IfOk result (λ _. first_holding (parameter_faults layout.now (names_of earlier.now) (view member.now)) ≡ None) }
    ensures name { IfOk result (λ e. e.name.now ≡ name_of (view member.now)) }
    ensures form { IfOk result (λ e. form_read e ≡ form_of (view member.now)) }
    ensures bits { IfOk result (λ e. e.meaning.bits ≡ mask_in (view member.now)) }
    ensures names { IfOk result (λ e. map view e.meaning.names.now ≡ pairs_in (view member.now)) }
    ensures group { IfOk result (λ e. option_map (λ s. s.now) e.meaning.group ≡ group_in (view member.now)) }
    ensures refused { IfErr result (λ e. first_holding (parameter_faults layout.now (names_of earlier.now) (view member.now)) ≡ Some e) }
{
    let mut entry = Entry::read(member, true)?;
    if has_name(earlier, entry.name) {
        return Err(Why::Taken);
    }
    if !entry.is_in_segments(layout) {
        return Err(Why::NoSegment);
    }
    let meaning = Meaning::read(member, entry.kind)?;
    entry.meaning = meaning;
    Ok(entry)
}

/// The measurement that a table describes, behind these parameters and measurements.
fn measurement<'a>(
    member: &'a Value,
    layout: &Layout,
    parameters: &[Entry<'_>],
    earlier: &[Entry<'_>],
) -> Result<Entry<'a>, Why>
    ensures passes { IfOk result (λ _. first_holding (measurement_faults layout.now (names_of parameters.now ++ names_of earlier.now) (view member.now)) ≡ None) }
    ensures name { IfOk result (λ e. e.name.now ≡ name_of (view member.now)) }
    ensures axes { IfOk result (λ e. ((form_read e).x_axis ≡ None) × ((form_read e).y_axis ≡ None)) }
    ensures event { IfOk result (λ e. e.event ≡ event_number (view member.now)) }
    ensures bits { IfOk result (λ e. e.meaning.bits ≡ mask_in (view member.now)) }
    ensures names { IfOk result (λ e. map view e.meaning.names.now ≡ pairs_in (view member.now)) }
    ensures group { IfOk result (λ e. option_map (λ s. s.now) e.meaning.group ≡ group_in (view member.now)) }
    ensures refused { IfErr result (λ e. first_holding (measurement_faults layout.now (names_of parameters.now ++ names_of earlier.now) (view member.now)) ≡ Some e) }
{
    let mut entry = Entry::read(member, false)?;
    if is_taken(parameters, earlier, entry.name) {
        return Err(Why::Taken);
    }
    if !entry.is_in_memory(layout) {
        return Err(Why::NoMemory);
    }
    let event = event_in(member, layout)?;
    let meaning = Meaning::read(member, entry.kind)?;
    entry.event = event;
    entry.meaning = meaning;
    Ok(entry)
}

/// Whether one of these has this name.
fn is_taken(parameters: &[Entry<'_>], earlier: &[Entry<'_>], name: &str) -> bool
    ensures { result ≡ is_key_among name.now (names_of parameters.now ++ names_of earlier.now) }
{
    if has_name(parameters, name) {
        return true;
    }
    has_name(earlier, name)
}

fn has_name(entries: &[Entry<'_>], name: &str) -> bool
    ensures { result ≡ is_key_among name.now (names_of entries.now) }
{
    for entry in entries {
        if name == entry.name {
            return true;
        }
    }
    false
}

fn keep<'a>(entries: &mut Vec<Entry<'a>>, entry: Entry<'a>) -> Result<(), DescribeError>
    ensures kept { IfOk result (λ _. names_of entries.new.items ≡ names_of entries.old.items ++ entry.entry.name.now ∷ []) }
    ensures forms { IfOk result (λ _. forms_of entries.new.items ≡ forms_of entries.old.items ++ form_read entry.entry ∷ []) }
    ensures refused { IfErr result (λ e. e ≡ DescribeError.Program Fault.Memory) }
{
    match entries.push(entry) {
        Ok(()) => Ok(()),
        Err(_) => Err(DescribeError::Program(Fault::Memory)),
    }
}

/// The members of an array, none where there is none; nothing where it is no array.
pub(crate) fn members_in<'a>(document: &'a Value, key: &str) -> Option<&'a [Value]>
    ensures { MatchOption result (is_array_or_none (get key.now (view document.now)) ≡ false) (λ members. (is_array_or_none (get key.now (view document.now)) ≡ true) × (map view members.now ≡ members_of (get key.now (view document.now)))) }
{
    match document.get(key) {
        Some(value) => Some(value.as_array()?),
        None => Some(&[]),
    }
}
