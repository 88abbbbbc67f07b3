//! Who the callers of a server are.
ghost use Rattle.std.specs.Prelude.{◌≡◌, ◌<◌, ◌+◌};

use xcp_record::Roster;

/// The callers of a server of so many tools and tasks, in which so many tell the time: each tool has a pump.
pub fn roster_of(tools: u8, tasks: u8, clocks: u8) -> Roster
    ensures { (result.tools ≡ tools) × (result.tasks ≡ tasks) × (result.pumps ≡ tools) × (result.clocks ≡ clocks) }
{
    Roster {
        tools,
        tasks,
        pumps: tools,
        clocks,
    }
}

/// How many callers these are.
pub fn callers_of(roster: &Roster) -> u8
    requires { roster.now.tools + roster.now.tasks + roster.now.pumps + roster.now.clocks < 256 }
    ensures { result ≡ roster.now.tools + roster.now.tasks + roster.now.pumps + roster.now.clocks }
{
    roster.tools + roster.tasks + roster.pumps + roster.clocks
}
