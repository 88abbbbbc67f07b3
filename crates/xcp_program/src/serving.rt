//! How a server is asked to serve that ends with its tools and tasks.
ghost use Rattle.std.specs.Prelude.{◌≡◌};
ghost use Rattle.xcp_program.specs.Serves.{serving_of};

use crate::purpose::Options;

/// How a server is asked to serve, but for its layout file and its address.
#[derive(Clone, Copy, Debug, PartialEq, Eq)]
pub struct Serving {
    /// How many connections are accepted.
    pub tools: u8,
    /// How many tasks run.
    pub tasks: u8,
    /// How many cycles each task runs.
    pub cycles: u32,
    /// From how many calls on a chapter of the journal is cut off.
    pub chapter: u32,
    /// The milliseconds from one cycle of a task to its next.
    pub period: u32,
    /// Whether each task goes by its channel's own cycle and unit where these say a time.
    pub pace: bool,
    /// Whether a store that stores ends its chapter: where a file keeps the stored pages.
    pub each_store: bool,
}

impl Options {
    /// How a server is asked to serve that ends with its tools and tasks, if that is what is asked for.
    pub fn serving(&self) -> Option<Serving>
        ensures { result ≡ serving_of self.now }
    {
        let Options::Serve {
            tools,
            tasks,
            cycles,
            chapter,
            period,
            flash,
            pace,
            ..
        } = self
        else {
            return None;
        };
        Some(Serving {
            tools: *tools,
            tasks: *tasks,
            cycles: *cycles,
            chapter: *chapter,
            period: *period,
            pace: *pace,
            each_store: flash.is_some(),
        })
    }
}
