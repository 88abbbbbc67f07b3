//! WRITE_DAQ_MULTIPLE is WRITE_DAQs in turn, all of them or none.
ghost use Rattle.std.specs.Prelude.{◌≡◌, ◌+◌, ◌*◌, ◌<◌, ◌≤◌, ℕ, List, ◌∷◌, length, true};
ghost use Rattle.xcp_packet.specs.declared.Command.{Command};
ghost use Rattle.xcp_slave.specs.AcceptedCommands.{Accepts};
ghost use Rattle.xcp_slave.specs.Outcomes.{Answer};
ghost use Rattle.xcp_slave.specs.SlaveValue.{SlaveValue, layout_of, noblock};
ghost use Rattle.xcp_laws.specs.AskedCommands.{IsAsked, IsPositive};
ghost use Rattle.xcp_laws.specs.NumberBytes.{double_of};

/// WRITE_DAQ_MULTIPLE has the number of its DAQ elements, and behind it eight bytes for each: BIT_OFFSET, size, address,
/// address extension, and one that is passed over. With one element it is WRITE_DAQ of that: it has the same answer, and
/// leaves the same slave.
/// ASAM MCD-1 XCP, protocol layer, description of commands: WRITE_DAQ_MULTIPLE, WRITE_DAQ.
pub fn one_of_many_is_one()
    ensures { (v w u : SlaveValue) (offset size a b c d extension dummy : ℕ) (more : List ℕ) (x y : Answer) → (layout_of v).extras.uploads_a2l ≡ true → IsAsked v (Command.WriteDaqMultiple (record { items = 1 ∷ offset ∷ size ∷ a ∷ b ∷ c ∷ d ∷ extension ∷ dummy ∷ more })) x w → IsAsked v (Command.WriteDaq offset size extension (double_of (layout_of v).order a b c d)) y u → (x ≡ y) × (w ≡ u) }
{}

/// With more elements it is WRITE_DAQ of the first and then, where that leaves the slave, WRITE_DAQ_MULTIPLE of the
/// others. If the first is refused it is answered so; else as the others are. Where these are accepted they leave the
/// same slave, and where either is refused the slave is as it was, but that a block under way is given up: all are
/// written or none. So it is with two, and WRITE_DAQ of the second.
/// ASAM MCD-1 XCP, protocol layer, description of commands: WRITE_DAQ_MULTIPLE, WRITE_DAQ.
pub fn many_are_ones_in_turn()
    ensures first { (v w u : SlaveValue) (n offset size a b c d extension dummy : ℕ) (more : List ℕ) (x y : Answer) → (layout_of v).extras.uploads_a2l ≡ true → 8 * n ≤ length more → IsAsked v (Command.WriteDaqMultiple (record { items = (n + 1) ∷ offset ∷ size ∷ a ∷ b ∷ c ∷ d ∷ extension ∷ dummy ∷ more })) x w → IsAsked v (Command.WriteDaq offset size extension (double_of (layout_of v).order a b c d)) y u → (IsPositive y → ⊥) → (x ≡ y) × (w ≡ noblock v) }
    ensures others { (v m w u : SlaveValue) (n offset size a b c d extension dummy : ℕ) (more told : List ℕ) (x y : Answer) → (layout_of v).extras.uploads_a2l ≡ true → 0 < n → IsAsked v (Command.WriteDaqMultiple (record { items = (n + 1) ∷ offset ∷ size ∷ a ∷ b ∷ c ∷ d ∷ extension ∷ dummy ∷ more })) x w → Accepts v (Command.WriteDaq offset size extension (double_of (layout_of v).order a b c d)) told m → IsAsked m (Command.WriteDaqMultiple (record { items = n ∷ more })) y u → (x ≡ y) × (IsPositive y → w ≡ u) × ((IsPositive y → ⊥) → w ≡ noblock v) }
    ensures two { (v m w u : SlaveValue) (offset size a b c d extension dummy second_offset second_size e f g h second_extension second_dummy : ℕ) (more told : List ℕ) (x y : Answer) → (layout_of v).extras.uploads_a2l ≡ true → IsAsked v (Command.WriteDaqMultiple (record { items = 2 ∷ offset ∷ size ∷ a ∷ b ∷ c ∷ d ∷ extension ∷ dummy ∷ second_offset ∷ second_size ∷ e ∷ f ∷ g ∷ h ∷ second_extension ∷ second_dummy ∷ more })) x w → Accepts v (Command.WriteDaq offset size extension (double_of (layout_of v).order a b c d)) told m → IsAsked m (Command.WriteDaq second_offset second_size second_extension (double_of (layout_of v).order e f g h)) y u → (x ≡ y) × (IsPositive y → w ≡ u) × ((IsPositive y → ⊥) → w ≡ noblock v) }
{}
