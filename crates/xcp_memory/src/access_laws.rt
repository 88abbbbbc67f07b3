//! Laws of reads and writes: each function's contract is the law, and it does nothing.
ghost use Rattle.std.specs.Prelude.{◌≡◌, ◌<◌, ◌*◌, ◌%◌, ℕ, List, drop, get_or, length, sum};
ghost use Rattle.xcp_packet.specs.ByteOrder.{number_in};
ghost use Rattle.xcp_packet.specs.declared.Order.{Order};
ghost use Rattle.xcp_memory.specs.Checksum.{checksum_of, modulus, numbers, summed, unit};
ghost use Rattle.xcp_memory.specs.Layout.{IsLayout};
ghost use Rattle.xcp_memory.specs.Memory.{Reads, Tool};
ghost use Rattle.xcp_memory.specs.Pages.{IsPages, PagesValue};
ghost use Rattle.xcp_memory.specs.AccessLaws.{ToolIsRead, ControllerIsRead, ToolIsWritten, OutsideIsDenied, ProtectedIsRefused};

/// What `Pages::read_xcp` gives is the read of the tool's bytes.
pub fn tool_is_read()
    ensures { ToolIsRead }
{}

/// What `Pages::read_ecu` gives is the read of the controller's bytes.
pub fn controller_is_read()
    ensures { ControllerIsRead }
{}

/// What `Pages::write_xcp` does is the write to the tool's bytes.
pub fn tool_is_written()
    ensures { ToolIsWritten }
{}

/// Where a write is refused: it is denied exactly where its range lies in no one area, and protected
/// exactly where it lies in one that may not be written.
pub fn writes_are_refused()
    ensures outside { OutsideIsDenied }
    ensures protected { ProtectedIsRefused }
{}

/// A checksum is the sum of what a read of the tool gives: of its bytes, or of the words or double
/// words that they are, one behind another.
pub fn a_checksum_is_a_sum()
    ensures read { (v : PagesValue) (a n : ℕ) (read : List ℕ) → IsLayout v.layout → IsPages v → Reads Tool v a n read → checksum_of v a n ≡ summed v.layout.checksum v.layout.order read }
    ensures bytes { (v : PagesValue) (a n : ℕ) (read : List ℕ) → IsLayout v.layout → IsPages v → Reads Tool v a n read → unit v.layout.checksum ≡ 1 → checksum_of v a n ≡ sum read % modulus v.layout.checksum }
    ensures each { (order : Order) (n k i : ℕ) (bytes : List ℕ) → i < k → get_or (numbers order n k bytes) i 0 ≡ number_in order n (drop (n * i) bytes) }
    ensures all { (order : Order) (n k : ℕ) (bytes : List ℕ) → length (numbers order n k bytes) ≡ k }
{}
