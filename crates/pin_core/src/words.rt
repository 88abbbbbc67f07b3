// The words of one buffer, or of one publication.
ghost use Rattle.std.specs.Prelude.{◌≡◌, ℕ, ◌<◌, length, slice_index, slice_set, replicate, IfOk};

use std::alloc::{AllocError, Global};
use std::marker::Model;

/// Contracts see it as the list of its words.
#[derive(Drop)]
pub(crate) struct Words {
    items: Vec<u64>,
}

impl Model for Words {
    ghost use Rattle.std.specs.Prelude.{List, ℕ};

    ghost Value = { List ℕ };

    ghost view = { λ w. w.items.items };
}

impl Words {
    /// A copy of these words.
    pub(crate) fn copy_of(alloc: Global, words: &[u64]) -> Result<Words, AllocError>
        ensures { IfOk result (λ copy. copy ≡ words.now) }
    {
        Ok(Words {
            items: words.to_vec(alloc)?,
        })
    }

    /// As many zeros.
    pub(crate) fn zeros(alloc: Global, len: usize) -> Result<Words, AllocError>
        ensures { IfOk result (λ zeros. zeros ≡ replicate len 0) }
    {
        Ok(Words {
            items: vec![in alloc; 0; len]?,
        })
    }

    pub(crate) fn as_slice(&self) -> &[u64]
        ensures { result.now ≡ self.now }
    {
        self.items.as_slice()
    }

    pub(crate) fn len(&self) -> usize
        ensures { result ≡ length self.now }
    {
        self.items.len()
    }

    pub(crate) fn get(&self, k: usize) -> u64
        requires { k < length self.now }
        ensures { result ≡ slice_index self.now k }
    {
        self.items[k]
    }

    pub(crate) fn set(&mut self, k: usize, word: u64)
        requires { k < length self.old }
        ensures { self.new ≡ slice_set self.old k word }
    {
        self.items[k] = word;
    }
}
