//! The image of the controller's pages.
ghost use Rattle.std.specs.Prelude.{◌≡◌, ◌≢◌, ◌≤◌, ◌+◌, ◌-◌, ◌++◌, MatchBool, length, min, take, drop, replicate};
ghost use Rattle.xcp_memory.specs.EcuImage.{ecu_image, image_part, image_size};

use super::Pages;
use crate::page_set::Side;

impl Pages {
    /// Writes the ECU image: the controller's pages of the segments in order, and then zeros.
    pub fn ecu_image(&self, out: &mut [u8])
        requires { length out.old ≡ image_size self.now.layout }
        ensures { out.new ≡ ecu_image self.now }
    {
        self.known();
        let _ = self.ecu_image_part(0, out);
    }

    /// Writes the bytes of the ECU image from a place on, as many as `out` has, and says whether they are others than those that stood
    /// there.
    pub fn ecu_image_part(&self, at: usize, out: &mut [u8]) -> bool
        requires { at + length out.old ≤ image_size self.now.layout }
        ensures bytes { out.new ≡ image_part at (length out.old) self.now }
        ensures differs { MatchBool result (out.new ≢ out.old) (out.new ≡ out.old) }
    {
        self.layout.known();
        // How many bytes of the pages that come stand before the part, and how many of it are written.
        let mut before = at;
        let mut done = 0;
        let mut differs = false;
        for segment in &self.segments {
            let page = segment.page(Side::Ecu);
            let skipped = before.min(page.len());
            before -= skipped;
            let (laid, other) = lay(&page[skipped..], &mut out[done..]);
            done += laid;
            if other {
                differs = true;
            }
        }
        if clear(&mut out[done..]) {
            differs = true;
        }
        differs
    }
}

/// Writes bytes over the first ones of `out`, as many as there is room for, and answers how many, and whether they are others than those
/// that stood there.
fn lay(bytes: &[u8], out: &mut [u8]) -> (usize, bool)
    ensures count { result.0 ≡ min (length bytes.now) (length out.old) }
    ensures laid { out.new ≡ take result.0 bytes.now ++ drop result.0 out.old }
    ensures differs { MatchBool result.1 (out.new ≢ out.old) (out.new ≡ out.old) }
{
    let n = bytes.len().min(out.len());
    (n, put(&bytes[..n], &mut out[..n]))
}

/// Writes bytes over as many others, and says whether these are other ones.
fn put(bytes: &[u8], out: &mut [u8]) -> bool
    requires { length bytes.now ≡ length out.old }
    ensures put { out.new ≡ bytes.now }
    ensures differs { MatchBool result (out.new ≢ out.old) (out.new ≡ out.old) }
{
    if *bytes == *out {
        return false;
    }
    out.copy_from_slice(bytes);
    true
}

/// Makes all bytes zeros, and says whether they weren't.
fn clear(bytes: &mut [u8]) -> bool
    ensures zeros { bytes.new ≡ replicate (length bytes.old) 0 }
    ensures differs { MatchBool result (bytes.new ≢ bytes.old) (bytes.new ≡ bytes.old) }
{
    let differs = bytes.iter().any(|b| *b != 0);
    bytes.fill(0);
    differs
}
