//! What a check finds.
ghost use Rattle.std.specs.Prelude.{◌≡◌, ◌↔◌, IsTrue};
ghost use Rattle.xcp_describe.specs.Findings.{IsClean, unreadable};

use crate::refusal::DescribeError;
use xcp_config::ConfigError;

/// What a check found in a layout file.
#[derive(Clone, Copy, Debug, PartialEq, Eq)]
pub struct Findings {
    /// The first fault of its layout.
    pub fault: Option<ConfigError>,
    /// How many of its keys nothing reads.
    pub unread: usize,
    /// The first entry that `describe` refuses, where the layout has no fault.
    pub refused: Option<DescribeError>,
}

impl Findings {
    /// What is found in a file that is no document.
    pub(crate) fn no_document() -> Findings
        ensures { result ≡ unreadable }
    {
        Findings {
            fault: Some(ConfigError::Text),
            unread: 0,
            refused: None,
        }
    }

    /// Whether nothing was found.
    pub fn is_empty(&self) -> bool
        ensures { IsTrue result ↔ IsClean self.now }
    {
        self.fault.is_none() && self.unread == 0 && self.refused.is_none()
    }

    /// The status with which the program ends: 0 where nothing was found, else 1.
    pub fn status(&self) -> u8
        ensures clean { IsClean self.now → result ≡ 0 }
        ensures found { ¬ (IsClean self.now) → result ≡ 1 }
    {
        if self.is_empty() { 0 } else { 1 }
    }
}
