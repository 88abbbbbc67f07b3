//! An image of a slave, in memory of its own.
ghost use Rattle.std.specs.Prelude.{◌≡◌, length, replicate, IfOk};
ghost use Rattle.xcp_memory.specs.EcuImage.{image_size};

use crate::{Name, Reader};
use std::alloc::{AllocError, Global};
use std::marker::{Model, PhantomData};

/// The bytes of an image: as many as the images of the opening have that the type names.
#[derive(Drop)]
pub struct ImageBuffer<N: Name> {
    pub(crate) bytes: Vec<u8>,
    of: PhantomData<N>,
}

impl<N: Name> Model for ImageBuffer<N> {
    ghost use Rattle.std.specs.Prelude.{◌≡◌, ℕ, List, length};
    ghost use Rattle.xcp_memory.specs.EcuImage.{image_size};

    ghost Value = { List ℕ };

    ghost view = { λ i. i.bytes.items };

    ghost invariant = { λ i. length i.bytes.items ≡ image_size N.layout };
}

impl<N: Name> ImageBuffer<N> {
    /// Zeros, as many as an image of the reader has bytes.
    pub fn new(alloc: Global, reader: &Reader<N>) -> Result<ImageBuffer<N>, AllocError>
        ensures { IfOk result (λ i. i ≡ replicate (image_size N.layout) 0) }
    {
        let bytes = vec![in alloc; 0; reader.size()]?;
        Ok(ImageBuffer {
            bytes,
            of: PhantomData,
        })
    }

    /// The bytes.
    pub fn bytes(&self) -> &[u8]
        ensures value { result.now ≡ self.now }
        ensures size { length result.now ≡ image_size N.layout }
    {
        &self.bytes
    }
}
