//! Two cores of pins that are asked the same: one event by event, the other by runs of all events from one question to the next.
ghost use Rattle.std.specs.Prelude.{◌<◌, ◌≤◌, length};

use crate::events::{event, said};
use crate::playing::{Subject, each_told};
use crate::texts::Said;
use pin_core::{Core, Event, MAX_WORDS, RunError, Seen, StepError, run};
use std::alloc::{AllocError, Global};
use test_playing::{Row, Section, Trouble};

/// Two cores, and what the first did since the second did the same.
#[derive(Drop)]
pub struct Cores {
    alloc: Global,
    stepped: Core,
    ran: Core,
    events: Vec<Event>,
    seen: Vec<Seen>,
}

impl Cores {
    /// Cores whose first image has these words.
    pub fn new(alloc: Global, image: &[u64]) -> Result<Cores, AllocError>
        requires some_words { 0 < length image.now }
        requires few_words { length image.now ≤ MAX_WORDS }
    {
        Ok(Cores {
            alloc,
            stepped: Core::new(alloc, image)?,
            ran: Core::new(alloc, image)?,
            events: Vec::new(alloc),
            seen: Vec::new(alloc),
        })
    }

    fn forget(&mut self) {
        self.events.clear();
        self.seen.clear();
    }

    /// Whether the other core answers all events since the last question so, in one run.
    fn runs_alike(&mut self) -> bool {
        let alike = match run(self.alloc, &mut self.ran, &self.events) {
            Ok(seen) => seen == self.seen,
            Err(_) => false,
        };
        self.forget();
        alike
    }

    /// Whether the other core stops at the last of these events, with this refusal.
    fn stops_alike(&mut self, error: StepError) -> bool {
        let index = self.seen.len();
        let stopped = RunError::Refused { index, error };
        let alike = match run(self.alloc, &mut self.ran, &self.events) {
            Ok(_) => false,
            Err(error) => error == stopped,
        };
        self.forget();
        alike
    }

    fn idle(&mut self) -> Result<String, AllocError> {
        let buffer = self.stepped.idle();
        if self.runs_alike() && self.ran.idle() == buffer {
            format!(in self.alloc; "{buffer}")
        } else {
            format!(in self.alloc; "{buffer}, and otherwise in one run")
        }
    }

    fn refused(&mut self, error: StepError) -> Result<String, AllocError> {
        let why = match error {
            StepError::NotEnabled => "refused",
            StepError::Memory => "memory",
        };
        if self.stops_alike(error) {
            String::from_str(self.alloc, why)
        } else {
            format!(in self.alloc; "{why}, and otherwise in one run")
        }
    }

    fn step(&mut self, event: Event) -> Result<String, AllocError> {
        self.events.push(event)?;
        match self.stepped.step(event) {
            Ok(seen) => {
                self.seen.push(seen)?;
                said(self.alloc, event, seen)
            }
            Err(error) => self.refused(error),
        }
    }

    /// Asks the other core what is left, and adds what it answers otherwise.
    pub fn end(&mut self, told: &mut Vec<String>) -> Result<(), AllocError> {
        if !self.runs_alike() {
            let other = "the last events otherwise in one run";
            told.push(String::from_str(self.alloc, other)?)?;
        }
        Ok(())
    }
}

impl Subject for Cores {
    fn told(&mut self, _alloc: Global, question: &str) -> Said {
        if question == "idle" {
            return Ok(Some(self.idle()?));
        }
        match event(question) {
            Some(event) => Ok(Some(self.step(event)?)),
            None => Ok(None),
        }
    }
}

/// The words of an image, with blanks between.
fn image(alloc: Global, section: &Section<'_>) -> Result<Vec<u64>, Trouble> {
    let mut image = Vec::new(alloc);
    for word in section.words.split(' ') {
        image.push(section.wanted(word.parse::<u64>().ok(), "no image")?)?;
    }
    Ok(image)
}

/// Plays events over the core of pins, whose first image stands in the section's line.
pub fn play_events(
    alloc: Global,
    section: &Section<'_>,
    rows: &[Row<'_>],
) -> Result<Vec<String>, Trouble> {
    let image = image(alloc, section)?;
    let words = image.as_slice();
    if words.is_empty() || words.len() > MAX_WORDS {
        return Err(Trouble::at(section.line, "no image"));
    }
    let mut cores = Cores::new(alloc, words)?;
    let mut told = each_told(alloc, &mut cores, rows)?;
    cores.end(&mut told)?;
    Ok(told)
}
