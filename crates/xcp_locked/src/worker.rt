//! Who works in a task.
ghost use Rattle.std.specs.Prelude.{◌≡◌, None};
ghost use Rattle.xcp_locked.specs.Excerpts.{HandsNone, none_cut, way_of};

use crate::{Caller, Chapters, Handing, ImageBuffer, Name, Reader};
use std::alloc::Global;

/// Who works: a caller, and a reader with the image that it read last.
#[derive(Drop)]
pub struct Worker<N: Name> {
    pub caller: Caller<N>,
    pub reader: Reader<N>,
    pub last: ImageBuffer<N>,
    /// The chapters that it has cut, in order.
    pub chapters: Chapters<N>,
}

impl<N: Name> Worker<N> {
    /// A worker that has read no image yet, and cut no chapter.
    pub fn new(
        alloc: Global,
        caller: Caller<N>,
        reader: Reader<N>,
        last: ImageBuffer<N>,
    ) -> Worker<N>
        ensures caller { result.caller ≡ caller }
        ensures reader { result.reader ≡ reader }
        ensures last { result.last ≡ last }
        ensures chapters { result.chapters ≡ none_cut None }
    {
        Worker::handing_in(alloc, caller, reader, last, None)
    }

    /// The same. Excerpts of its chapters are handed in here, if they are anywhere.
    pub fn handing_in(
        alloc: Global,
        caller: Caller<N>,
        reader: Reader<N>,
        last: ImageBuffer<N>,
        handing: Option<Handing>,
    ) -> Worker<N>
        requires { HandsNone handing }
        ensures caller { result.caller ≡ caller }
        ensures reader { result.reader ≡ reader }
        ensures last { result.last ≡ last }
        ensures chapters { result.chapters ≡ none_cut (way_of handing) }
    {
        Worker {
            caller,
            reader,
            last,
            chapters: Chapters::handed_in(alloc, handing),
        }
    }
}
