//! What MODIFY_BITS does to each bit.
ghost use Rattle.std.specs.Prelude.{◌≡◌, ◌<◌, ◌≤◌, ◌+◌, ◌-◌, ◌%◌, ◌^◌, ◌⊎◌, ℕ, min};
ghost use Rattle.std.specs.Int.{bit_at};
ghost use Rattle.xcp_transfer.specs.Downloads.{modified};

/// MODIFY_BITS changes bits S to S + 15 of a double word, those that are in it: bit b becomes (bit b and
/// bit b - S of the AND mask) xor bit b - S of the XOR mask. It leaves all others. (Of two bits the
/// smaller one is both, and their sum modulo 2 is one of them but not both.)
/// ASAM MCD-1 XCP, protocol layer, description of commands: MODIFY_BITS.
pub fn bits_are_modified_one_by_one()
    ensures named { (s ma mx a b : ℕ) → ma < 2 ^ 16 → s ≤ b → b < s + 16 → b < 32 → bit_at (modified s ma mx a) b ≡ (min (bit_at a b) (bit_at ma (b - s)) + bit_at mx (b - s)) % 2 }
    ensures others { (s ma mx a b : ℕ) → mx < 2 ^ 16 → (b < s) ⊎ (s + 16 ≤ b) → b < 32 → bit_at (modified s ma mx a) b ≡ bit_at a b }
    ensures double_word { (s ma mx a b : ℕ) → a < 2 ^ 32 → 32 ≤ b → bit_at (modified s ma mx a) b ≡ 0 }
{}
