//! A slave whose layout asks for nothing that only some slaves have is the slave that there was before. Each law is the
//! contract of a function with an empty body.
ghost use Rattle.std.specs.Prelude.{◌≡◌, ◌⊎◌, ℕ, All, List, [], ◌∷◌, false, slice_index, true};
ghost use Rattle.arrayvec.specs.ArrayVec.{ArrayVec};
ghost use Rattle.xcp_memory.specs.Layout.{IsLayout, IsPlain, LayoutValue};
ghost use Rattle.xcp_slave.specs.Outcomes.{Answer};
ghost use Rattle.xcp_slave.specs.Run.{Run};
ghost use Rattle.xcp_slave.specs.SlaveInvariant.{IsOfBytes, IsSlave};
ghost use Rattle.xcp_slave.specs.SlaveValue.{SlaveValue, layout_of, noblock, opening};
ghost use Rattle.xcp_slave.specs.Step.{Answers};
ghost use Rattle.xcp_slave.specs.declared.Exchange.{Exchange};
ghost use Rattle.xcp_slave.specs.declared.Outcome.{Outcome};
ghost use Rattle.xcp_slave.specs.declared.Request.{Request};
ghost use Rattle.xcp_laws.specs.PlainAnswers.{HasNothingNew};

/// Where the layout asks for nothing that only some slaves have, no answer has anything of it, at no step and in no run:
/// GET_VERSION (C0) and WRITE_DAQ_MULTIPLE (C7) are unknown, whatever stands behind their codes, GET_ID of another kind
/// than 0 tells length 0, and no packet tells of a lost sample. Where a layout doesn't ask for these two commands, they
/// are refused by ERR_CMD_UNKNOWN while a tool is connected, and a block under way is given up; else they have no answer
/// and change nothing.
/// ASAM MCD-1 XCP, protocol layer, description of commands: GET_ID, GET_VERSION, WRITE_DAQ_MULTIPLE; table of error
/// codes, ERR_CMD_UNKNOWN; event packets: EV_DAQ_OVERLOAD.
pub fn without_new_keys_there_is_nothing_new()
    ensures step { (v : SlaveValue) (q : Request) (a : Answer) (w : SlaveValue) → IsSlave v → IsPlain (layout_of v) → Answers v q a w → HasNothingNew (layout_of v).order q a }
    ensures run { (l : LayoutValue) (xs : List Exchange) (w : SlaveValue) → IsLayout l → IsPlain l → All (λ (x : Exchange). IsOfBytes x.request) xs → Run (opening l) xs w → All (λ (x : Exchange). HasNothingNew l.order x.request x.answer) xs }
    ensures unknown { (v w : SlaveValue) (packet : ArrayVec ℕ) (a : Answer) → (layout_of v).extras.uploads_a2l ≡ false → (slice_index packet.items 0 ≡ 0xC0) ⊎ (slice_index packet.items 0 ≡ 0xC7) → Answers v (Request.Command packet) a w → ((v.connected ≡ true) × (a ≡ Outcome.Packets ((0xFE ∷ 0x20 ∷ []) ∷ [])) × (w ≡ noblock v)) ⊎ ((v.connected ≡ false) × (a ≡ Outcome.Silent) × (w ≡ v)) }
{}
