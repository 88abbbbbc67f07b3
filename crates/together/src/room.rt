//! Room for threads, made before the first of them.
ghost use Rattle.std.specs.Prelude.{IfOk};
ghost use Rattle.together.specs.private.ThreadRoom.{HasThreadRoom};

use std::alloc::{AllocError, Global};

/// What stands ready for the handles `H` and the results `T` of some works.
#[derive(Drop)]
pub struct Room<H: Drop, T: Drop> {
    pub handles: Vec<H>,
    pub results: Vec<T>,
}

/// Room for so many works of one kind, and for so many of another.
pub fn rooms_for<H: Drop, T: Drop, I: Drop, U: Drop>(
    alloc: Global,
    works: usize,
    others: usize,
) -> Result<(Room<H, T>, Room<I, U>), AllocError>
    ensures { IfOk result (λ r. HasThreadRoom r.0 works × HasThreadRoom r.1 others) }
{
    let first = room_for(alloc, works)?;
    let second = room_for(alloc, others)?;
    Ok((first, second))
}

/// Room for so many works.
fn room_for<H: Drop, T: Drop>(alloc: Global, works: usize) -> Result<Room<H, T>, AllocError>
    ensures { IfOk result (λ r. HasThreadRoom r works) }
{
    let handles = Vec::with_capacity(alloc, works)?;
    let results = Vec::with_capacity(alloc, works)?;
    Ok(Room { handles, results })
}
