//! A law of the definitions: the contract of a function with an empty body.
ghost use Rattle.std.specs.Prelude.{◌≡◌, ◌<◌, ℕ, Option};
ghost use Rattle.xcp_record.specs.declared.Roster.{Roster};
ghost use Rattle.xcp_audit.specs.CallLine.{caller_name};

/// A name is of one caller: of callers that have the same name in a file, with a roster or without, the numbers are the same.
pub fn a_name_is_of_one_caller()
    ensures { (roster : Option Roster) (caller other : ℕ) → caller < 256 → other < 256
        → caller_name roster caller ≡ caller_name roster other → caller ≡ other }
{}
