//! What identifies an A2L file.
ghost use Rattle.std.specs.Prelude.{◌≡◌, [], true, false, IfOk, string_bytes};
ghost use Rattle.xcp_describe.specs.Files.{epk_line, epk_of};

use sha2::{Digest, Sha256};
use std::alloc::{AllocError, Global};

/// The EPK of a configuration: the SHA-256 digest of its text, in 64 hex digits of lower case.
pub(crate) fn epk_of(alloc: Global, config: &str) -> Result<String, AllocError>
    ensures { IfOk result (λ epk. string_bytes epk ≡ epk_of config.now) }
{
    let digest = Sha256::digest(config.as_bytes());
    hex::encode(alloc, digest)
}

/// The line that tells it, if it is told; else nothing.
pub(crate) fn epk_line(alloc: Global, config: &str, told: bool) -> Result<String, AllocError>
    ensures told { IfOk result (λ line. told ≡ true → string_bytes line ≡ epk_line (epk_of config.now)) }
    ensures untold { IfOk result (λ line. told ≡ false → string_bytes line ≡ []) }
{
    if !told {
        return Ok(String::new(alloc));
    }
    let epk = epk_of(alloc, config)?;
    format!(in alloc; "      EPK \"{epk}\"\n")
}
