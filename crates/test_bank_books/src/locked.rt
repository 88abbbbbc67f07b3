//! A slave behind its lock, its callers, its chapters and its readers.
ghost use Rattle.std.specs.Prelude.{◌≡◌, ◌≤◌};
ghost use Rattle.xcp_locked.specs.UnnamedSlave.{IsNamed};

use crate::calls::{follows_or_goes, say_refused, submitted};
use crate::chapters::{joined, numbered, order, say_all_settled, say_of, say_settled};
use crate::playing::{Subject, each_told, words};
use crate::receipts::altered;
use crate::texts::{Said, image_text, say_done, say_number};
use pin_core::READERS;
use std::alloc::Global;
use std::marker::{Brand, Model};
use test_playing::{Row, Section, Trouble};
use xcp_bank::IMAGE_BYTES;
use xcp_locked::{Caller, Chapter, Locked, Mismatch, Name, Opening, Reader, Unnamed};
use xcp_program::layout_of;

/// A slave with all that its opening gave out, and the chapters that were cut off.
#[derive(Drop)]
struct Opened<N: Name> {
    locked: Locked<N>,
    callers: Vec<Caller<N>>,
    readers: [Option<Reader<N>>; READERS],
    chapters: Vec<Chapter<N>>,
    aside: Vec<Chapter<N>>,
    parts: u8,
}

impl<N: Name> Model for Opened<N> {
    ghost use Rattle.std.specs.Prelude.{⊤, ◌≡◌};

    ghost Value = { ⊤ };

    ghost view = { λ o. tt };

    ghost invariant = { λ o. N.parts ≡ o.parts };
}

/// The readers, each at its place.
fn seats<N: Name>(readers: [Reader<N>; READERS]) -> [Option<Reader<N>>; READERS] {
    let [zero, one, two, three, four, five] = readers;
    [
        Some(zero),
        Some(one),
        Some(two),
        Some(three),
        Some(four),
        Some(five),
    ]
}

impl<N: Name> Opened<N> {
    /// What was opened for so many callers.
    fn new(alloc: Global, opening: Opening<N>, parts: u8) -> Opened<N>
        requires { N.parts ≡ parts }
    {
        let Opening {
            locked,
            callers,
            readers,
        } = opening;
        Opened {
            locked,
            callers,
            readers: seats(readers),
            chapters: Vec::new(alloc),
            aside: Vec::new(alloc),
            parts,
        }
    }

    /// What a caller's call is answered.
    fn calls(&mut self, alloc: Global, caller: usize, line: &str) -> Said {
        match self.callers.get_mut(caller) {
            Some(caller) => submitted(alloc, &mut self.locked, caller, line),
            None => Ok(None),
        }
    }

    /// Cuts the open chapter off.
    fn cuts(&mut self, alloc: Global) -> Said {
        match self.locked.cut_chapter(alloc) {
            Ok(chapter) => {
                let (number, calls, before) = (chapter.number(), chapter.len(), chapter.before());
                self.chapters.push(chapter)?;
                Ok(Some(format!(in alloc; "{number} of {calls} behind {before}")?))
            }
            Err(refusal) => say_refused(alloc, refusal),
        }
    }

    /// What settling says of a caller and the open chapter, or the one that is named.
    fn settled(&mut self, asked: &str) -> Option<Result<(), Mismatch>> {
        let (caller, chapter) = asked.split_once(" in ").unwrap_or((asked, ""));
        let caller = self.callers.get(caller.parse::<usize>().ok()?)?;
        if chapter.is_empty() {
            return Some(self.locked.settle(caller));
        }
        Some(numbered(&self.chapters, chapter)?.settle(caller))
    }

    /// What settling says of what is asked for.
    fn settles(&mut self, alloc: Global, asked: &str) -> Said {
        if asked == "all" {
            let Opened {
                locked,
                callers,
                chapters,
                parts,
                ..
            } = self;
            return say_all_settled(alloc, locked, chapters, callers, *parts);
        }
        match self.settled(asked) {
            Some(settled) => say_settled(alloc, settled),
            None => Ok(None),
        }
    }

    /// Alters receipts of a caller.
    fn alters(&mut self, alloc: Global, verb: &str, asked: &str) -> Option<()> {
        let (caller, rest) = words(asked);
        let caller = self.callers.get_mut(caller.parse::<usize>().ok()?)?;
        altered(alloc, caller, verb, rest)
    }

    /// The chapter that a caller's receipt names, and the place there.
    fn placed(&mut self, asked: &str) -> Option<(u64, u64)> {
        let (caller, index) = words(asked);
        let caller = self.callers.get(caller.parse::<usize>().ok()?)?;
        let receipt = caller.receipts.get(index.parse().ok()?)?;
        Some((receipt.chapter, receipt.at))
    }

    /// The same, as a text.
    fn receipt(&mut self, alloc: Global, asked: &str) -> Said {
        match self.placed(asked) {
            Some((chapter, at)) => Ok(Some(format!(in alloc; "{chapter} at {at}")?)),
            None => Ok(None),
        }
    }

    /// What a reader does.
    fn reads(&mut self, alloc: Global, verb: &str, place: &str) -> Said {
        match place.parse::<usize>() {
            Ok(place) if place < READERS => {
                let seat = &mut self.readers[place];
                follows_or_goes(alloc, &mut self.locked, seat, verb)
            }
            _ => Ok(None),
        }
    }

    /// What a chapter is asked.
    fn chapter(&mut self, alloc: Global, verb: &str, number: &str) -> Said {
        match numbered(&self.chapters, number) {
            Some(chapter) => say_of(alloc, &self.locked, chapter, verb),
            None => Ok(None),
        }
    }

    /// The ECU image, and how many calls the open chapter has.
    fn image(&mut self, alloc: Global) -> Said {
        let mut image = [0; IMAGE_BYTES];
        if self.locked.slave().layout().image_size() != IMAGE_BYTES {
            return Ok(None);
        }
        let place = self.locked.image(&mut image);
        let image = image_text(alloc, &image)?;
        Ok(Some(format!(in alloc; "{image} at {place}")?))
    }

    /// A number that the slave is asked for.
    fn number(&mut self, verb: &str) -> Option<u64> {
        match verb {
            "len" => Some(self.locked.len()),
            "total" => Some(self.locked.total()),
            "before" => Some(self.locked.before()),
            "chapter" => Some(self.locked.chapter()),
            "held" => Some(u64::from(self.locked.held())),
            "pending" => Some(u64::from(self.locked.pending())),
            _ => None,
        }
    }
}

impl<N: Name> Subject for Opened<N> {
    fn told(&mut self, alloc: Global, question: &str) -> Said {
        let (verb, rest) = words(question);
        if let Ok(caller) = verb.parse::<usize>() {
            return self.calls(alloc, caller, rest);
        }
        match verb {
            "cut" => self.cuts(alloc),
            "order" => order(alloc, &mut self.chapters, &mut self.aside, rest),
            "joined" => joined(alloc, &self.locked, &self.chapters),
            "settle" => self.settles(alloc, rest),
            "alter" | "move" | "lose" => say_done(alloc, self.alters(alloc, verb, rest)),
            "unchanged" | "followed" | "entries" => self.chapter(alloc, verb, rest),
            "receipt" => self.receipt(alloc, rest),
            "image" => self.image(alloc),
            _ if rest.is_empty() => say_number(alloc, self.number(verb)),
            _ => self.reads(alloc, verb, rest),
        }
    }
}

/// Plays calls of so many callers, from the opening on.
fn play_opened<N: Name>(
    alloc: Global,
    opening: Opening<N>,
    parts: u8,
    rows: &[Row<'_>],
) -> Result<Vec<String>, Trouble>
    requires { N.parts ≡ parts }
{
    each_told(alloc, &mut Opened::new(alloc, opening, parts), rows)
}

fn play_named<N: Name>(
    alloc: Global,
    unnamed: Unnamed,
    parts: u8,
    rows: &[Row<'_>],
) -> Result<Vec<String>, Trouble>
    requires name { IsNamed unnamed N.name N.parts N.layout N.bank }
    requires parts { unnamed.callers ≡ parts }
{
    play_opened(alloc, Locked::<N>::new(alloc, unnamed)?, parts, rows)
}

/// Plays calls of a slave that is opened for so many callers as the section's line says.
pub fn play_locked(
    alloc: Global,
    section: &Section<'_>,
    rows: &[Row<'_>],
) -> Result<Vec<String>, Trouble> {
    let parts = section.number()?;
    if parts < 1 || parts > 16 {
        return Err(Trouble::at(section.line, "there are 1 to 16 callers"));
    }
    let layout = layout_of(alloc, section.layout()?)?;
    let unnamed = Unnamed::new(alloc, layout, parts)?;
    play_named::<Brand>(alloc, unnamed, parts, rows)
}
