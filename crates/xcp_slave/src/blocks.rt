//! Laws of a whole block. Each is the contract of a function with an empty body.
ghost use Rattle.std.specs.Prelude.{◌≡◌, ◌≢◌, ◌+◌, ◌++◌, ℕ, All, List, None, Some, length, take};
ghost use Rattle.arrayvec.specs.ArrayVec.{ArrayVec};
ghost use Rattle.xcp_memory.specs.Memory.{Writes};
ghost use Rattle.xcp_packet.specs.declared.Command.{Command};
ghost use Rattle.xcp_slave.specs.AcceptedCommands.{Accepts};
ghost use Rattle.xcp_slave.specs.BlockDownload.{Comes};
ghost use Rattle.xcp_slave.specs.SlaveInvariant.{IsSlave};
ghost use Rattle.xcp_slave.specs.SlaveValue.{SlaveValue};
ghost use Rattle.xcp_slave.specs.declared.exchange.Exchange.{Exchange};
ghost use Rattle.xcp_slave.specs.declared.request.Request.{Request};
ghost use Rattle.xcp_transfer.specs.TransferValue.{BlockValue};
ghost use Rattle.xcp_transfer.specs.declared.Mta.{Mta};

/// A block of n bytes from its first packet to its last, whatever events, drains and stores come
/// between: before the last packet it has the bytes that came, in order, and no page of a segment has
/// changed, unless a store came between; with the last one all n bytes are written at once, at the
/// address that the MTA had, and the MTA stands behind them.
pub fn a_block_is_written_at_its_end()
    ensures gathered { (v u : SlaveValue) (n a : ℕ) (xs : List Exchange) (came : List ℕ) → Comes v n a xs came u → (b : BlockValue) × (u.transfer.block ≡ Some b) × (b.address ≡ a) × (b.bytes ≡ came) × (length came + b.expected ≡ n) }
    ensures kept { (v u : SlaveValue) (n a : ℕ) (xs : List Exchange) (came : List ℕ) → All (λ (x : Exchange). x.request ≢ Request.FinishStore) xs → Comes v n a xs came u → u.transfer.pages.segments ≡ v.transfer.pages.segments }
    ensures written { (v u w : SlaveValue) (n a remaining : ℕ) (xs : List Exchange) (came bytes : List ℕ) (items : ArrayVec ℕ) → Comes v n a xs came u → IsSlave u → Accepts u (Command.DownloadNext remaining items) bytes w → Writes u.transfer.pages a (came ++ take remaining items.items) w.transfer.pages }
    ensures all { (v u w : SlaveValue) (n a remaining : ℕ) (xs : List Exchange) (came bytes : List ℕ) (items : ArrayVec ℕ) → Comes v n a xs came u → IsSlave u → Accepts u (Command.DownloadNext remaining items) bytes w → length (came ++ take remaining items.items) ≡ n }
    ensures behind { (v u w : SlaveValue) (n a remaining : ℕ) (xs : List Exchange) (came bytes : List ℕ) (items : ArrayVec ℕ) → Comes v n a xs came u → IsSlave u → Accepts u (Command.DownloadNext remaining items) bytes w → (w.transfer.mta ≡ Mta.Memory (a + n)) × (w.transfer.block ≡ None) }
{}
