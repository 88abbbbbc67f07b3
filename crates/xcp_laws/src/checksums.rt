//! What a checksum adds, and of how many bytes there is one.
ghost use Rattle.std.specs.Prelude.{◌≡◌, ◌+◌, ◌*◌, ◌%◌, ◌<◌, ℕ, List, [], ◌∷◌};
ghost use Rattle.xcp_packet.specs.ByteOrder.{double_bytes};
ghost use Rattle.xcp_packet.specs.declared.Command.{Command};
ghost use Rattle.xcp_packet.specs.declared.Order.{Order};
ghost use Rattle.xcp_memory.specs.Checksum.{summed};
ghost use Rattle.xcp_memory.specs.Layout.{LayoutValue};
ghost use Rattle.xcp_memory.specs.declared.ChecksumKind.{ChecksumKind};
ghost use Rattle.xcp_memory.specs.declared.Class.{Class};
ghost use Rattle.xcp_transfer.specs.Uploads.{greatest_sum};
ghost use Rattle.xcp_slave.specs.Outcomes.{Answer};
ghost use Rattle.xcp_slave.specs.SlaveValue.{SlaveValue, layout_of};
ghost use Rattle.xcp_slave.specs.declared.Outcome.{Outcome};
ghost use Rattle.xcp_laws.specs.AskedCommands.{IsAsked};

/// A checksum is built number by number. Each byte more (ADD_11, ADD_12, ADD_14), or each word or double
/// word more, in the slave's byte order, adds its value, and the sum is kept to a byte, a word or a
/// double word.
/// ASAM MCD-1 XCP, protocol layer, description of commands: BUILD_CHECKSUM, table of checksum types.
pub fn a_checksum_adds_each_number()
    ensures none { (kind : ChecksumKind) (order : Order) → summed kind order [] ≡ 0 }
    ensures add_11 { (order : Order) (x : ℕ) (more : List ℕ) → summed ChecksumKind.Add11 order (x ∷ more) ≡ (x + summed ChecksumKind.Add11 order more) % 0x100 }
    ensures add_12 { (order : Order) (x : ℕ) (more : List ℕ) → summed ChecksumKind.Add12 order (x ∷ more) ≡ (x + summed ChecksumKind.Add12 order more) % 0x1_0000 }
    ensures add_14 { (order : Order) (x : ℕ) (more : List ℕ) → summed ChecksumKind.Add14 order (x ∷ more) ≡ (x + summed ChecksumKind.Add14 order more) % 0x1_0000_0000 }
    ensures add_22 { (x y : ℕ) (more : List ℕ) → summed ChecksumKind.Add22 Order.Intel (x ∷ y ∷ more) ≡ (x + 0x100 * y + summed ChecksumKind.Add22 Order.Intel more) % 0x1_0000 }
    ensures add_22_motorola { (x y : ℕ) (more : List ℕ) → summed ChecksumKind.Add22 Order.Motorola (x ∷ y ∷ more) ≡ (0x100 * x + y + summed ChecksumKind.Add22 Order.Motorola more) % 0x1_0000 }
    ensures add_24 { (x y : ℕ) (more : List ℕ) → summed ChecksumKind.Add24 Order.Intel (x ∷ y ∷ more) ≡ (x + 0x100 * y + summed ChecksumKind.Add24 Order.Intel more) % 0x1_0000_0000 }
    ensures add_24_motorola { (x y : ℕ) (more : List ℕ) → summed ChecksumKind.Add24 Order.Motorola (x ∷ y ∷ more) ≡ (0x100 * x + y + summed ChecksumKind.Add24 Order.Motorola more) % 0x1_0000_0000 }
    ensures add_44 { (x y z t : ℕ) (more : List ℕ) → summed ChecksumKind.Add44 Order.Intel (x ∷ y ∷ z ∷ t ∷ more) ≡ (x + 0x100 * y + 0x1_0000 * z + 0x100_0000 * t + summed ChecksumKind.Add44 Order.Intel more) % 0x1_0000_0000 }
    ensures add_44_motorola { (x y z t : ℕ) (more : List ℕ) → summed ChecksumKind.Add44 Order.Motorola (x ∷ y ∷ z ∷ t ∷ more) ≡ (0x100_0000 * x + 0x1_0000 * y + 0x100 * z + t + summed ChecksumKind.Add44 Order.Motorola more) % 0x1_0000_0000 }
{}

/// A sum of more bytes than the layout's class sums up in one call is refused, and the error packet tells how many these are: 65,536
/// in the large class. A layout of the class of 2,040 bytes has no such limit below what BUILD_CHECKSUM's parameter says.
/// ASAM MCD-1 XCP, protocol layer, description of commands: BUILD_CHECKSUM.
pub fn a_long_sum_is_told_the_greatest()
    ensures longer { (v w : SlaveValue) (size : ℕ) (a : Answer) → greatest_sum (layout_of v) < size → IsAsked v (Command.BuildChecksum size) a w → a ≡ Outcome.Packets ((0xFE ∷ 0x22 ∷ 0 ∷ 0 ∷ double_bytes (layout_of v).order (greatest_sum (layout_of v))) ∷ []) }
    ensures large { (l : LayoutValue) → l.class ≡ Class.Large → greatest_sum l ≡ 0x1_0000 }
    ensures papers { (l : LayoutValue) → l.class ≡ Class.Papers → greatest_sum l ≡ 0xFFFF_FFFF }
{}
