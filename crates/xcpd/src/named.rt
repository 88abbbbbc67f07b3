//! The bytes by which the file of a journal names the layout that its slave begins with.
ghost use Rattle.std.specs.Prelude.{◌≡◌};
ghost use Rattle.sha2.specs.Sha256.{sha256};
ghost use Rattle.xcp_program.specs.Decided.{answers_decided};

use std::snapshot::Snapshot;
use xcp_memory::Layout;
use xcp_program::answers_digest;

/// The SHA-256 of what decides the answers of a slave that begins with a layout. The layout itself, which moves into the slave, is seen by
/// contracts alone.
#[derive(Drop)]
pub struct Named {
    digest: [u8; 32],
    layout: Snapshot<Layout>,
    ghost names: { digest ≡ sha256 (answers_decided layout.value) },
}

impl Named {
    /// That of this layout.
    pub fn of(layout: &Layout) -> Named
        ensures { result.layout.value ≡ layout.now }
    {
        Named {
            digest: answers_digest(layout),
            layout: Snapshot::of(layout),
        }
    }

    /// Its bytes.
    pub fn digest(&self) -> [u8; 32]
        ensures { result ≡ sha256 (answers_decided self.now.layout.value) }
    {
        self.digest
    }
}
