//! Lists that contracts alone see.
ghost use Rattle.std.specs.Prelude.{◌≡◌, ◌<◌, ◌++◌, [], ◌∷◌, OnOk};

use std::alloc::{AllocError, Global};
use std::marker::Model;
use std::snapshot::Snapshot;

/// What was handed over, or taken, in order: contracts see the values. Here they take no memory.
#[derive(Drop)]
pub(crate) struct Noted<T> {
    all: Vec<Snapshot<T>>,
}

impl<T> Model for Noted<T> {
    ghost use Rattle.std.specs.Prelude.{◌-◌, map, vec_len, vec_capacity};
    ghost use Rattle.xcp_service.specs.Noted.{NotedValue};

    ghost Value = { NotedValue T };

    ghost view = { λ n. record { list = map (λ s. s.value) n.all.items; room = vec_capacity n.all - vec_len n.all } };
}

impl<T> Noted<T> {
    /// None yet.
    pub(crate) fn new(alloc: Global) -> Noted<T>
        ensures { result.list ≡ [] }
    {
        Noted {
            all: Vec::new(alloc),
        }
    }

    /// Makes room for one more.
    pub(crate) fn reserve(&mut self) -> Result<(), AllocError>
        ensures list { self.new.list ≡ self.old.list }
        ensures room { OnOk result (0 < self.new.room) }
    {
        self.all.reserve(1)
    }

    /// Notes one more, for which there is room.
    pub(crate) fn push_reserved(&mut self, value: &T)
        requires { 0 < self.old.room }
        ensures { self.new.list ≡ self.old.list ++ value.now ∷ [] }
    {
        self.all.push_reserved(Snapshot::of(value));
    }
}
