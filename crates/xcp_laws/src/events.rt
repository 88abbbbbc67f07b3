//! What an event is refused for, and which texts a tool uploads.
ghost use Rattle.std.specs.Prelude.{◌≡◌, ◌≢◌, ◌⊎◌, ◌+◌, ◌<◌, ◌≤◌, ℕ, List, [], ◌∷◌, ◌++◌, drop, get_or, length, take, None};
ghost use Rattle.arrayvec.specs.ArrayVec.{ArrayVec};
ghost use Rattle.xcp_packet.specs.ByteOrder.{double_bytes};
ghost use Rattle.xcp_packet.specs.declared.Command.{Command};
ghost use Rattle.xcp_memory.specs.Layout.{IsPlain, no_event, epk, description};
ghost use Rattle.xcp_memory.specs.declared.Class.{Class};
ghost use Rattle.xcp_transfer.specs.declared.Mta.{Mta};
ghost use Rattle.xcp_transfer.specs.declared.TextId.{TextId};
ghost use Rattle.xcp_transfer.specs.Uploads.{text_of_kind};
ghost use Rattle.xcp_slave.specs.AcceptedCommands.{Accepts};
ghost use Rattle.xcp_slave.specs.SlaveInvariant.{IsSlave};
ghost use Rattle.xcp_slave.specs.Step.{Answers, with_part};
ghost use Rattle.xcp_slave.specs.SlaveValue.{SlaveValue, layout_of};
ghost use Rattle.xcp_slave.specs.Outcomes.{Answer};
ghost use Rattle.xcp_slave.specs.declared.Outcome.{Outcome};
ghost use Rattle.xcp_slave.specs.declared.Request.{Request};

/// An event whose channel the layout doesn't have is refused for that, whatever its signals are; an event of a
/// channel that it has is refused if its signals are not as many bytes as the layout says, and in the large class only if they are more.
/// Either leaves the slave as it was. Any other is sampled or overruns, and its signals are then in their place; what it doesn't hand
/// over stays.
/// ASAM MCD-1 XCP, protocol layer: DAQ, event channels.
pub fn an_event_is_asked_for_its_channel_first()
    ensures channel { (v w : SlaveValue) (channel : ℕ) (signals : ArrayVec ℕ) (a : Answer) → length (layout_of v).events ≤ channel → Answers v (Request.Event channel signals) a w → (a ≡ Outcome.NoChannel) × (w ≡ v) }
    ensures signals { (v w : SlaveValue) (channel : ℕ) (signals : ArrayVec ℕ) (a : Answer) → channel < length (layout_of v).events → (layout_of v).class ≡ Class.Papers → length signals.items ≢ (layout_of v).signals_length → Answers v (Request.Event channel signals) a w → (a ≡ Outcome.BadSignals) × (w ≡ v) }
    ensures long { (v w : SlaveValue) (channel : ℕ) (signals : ArrayVec ℕ) (a : Answer) → channel < length (layout_of v).events → (layout_of v).class ≡ Class.Large → (layout_of v).signals_length < length signals.items → Answers v (Request.Event channel signals) a w → (a ≡ Outcome.BadSignals) × (w ≡ v) }
    ensures taken { (v w : SlaveValue) (channel : ℕ) (signals : ArrayVec ℕ) (a : Answer) → IsSlave v → channel < length (layout_of v).events → length signals.items ≡ (layout_of v).signals_length → Answers v (Request.Event channel signals) a w → ((a ≡ Outcome.Overrun) ⊎ ((n : ℕ) × (a ≡ Outcome.Sampled n))) × (w.transfer.pages.signals ≡ signals.items) }
    ensures part { (v w : SlaveValue) (channel : ℕ) (signals : ArrayVec ℕ) (a : Answer) → channel < length (layout_of v).events → (layout_of v).class ≡ Class.Large → length signals.items ≤ (layout_of v).signals_length → Answers v (Request.Event channel signals) a w → ((a ≡ Outcome.Overrun) ⊎ ((n : ℕ) × (a ≡ Outcome.Sampled n))) × (w.transfer.pages.signals ≡ signals.items ++ drop (length signals.items) v.transfer.pages.signals) }
{}

/// A controller hands over signals by themselves, before an event of theirs: these bytes are then in their place, and all others
/// of the slave stay as they were. Where they don't all lie in the signals area, none is taken.
/// ASAM MCD-1 XCP, protocol layer: DAQ, event channels.
pub fn signals_are_handed_over_in_parts()
    ensures inside { (v w : SlaveValue) (place : ℕ) (bytes : ArrayVec ℕ) (a : Answer) → place + length bytes.items ≤ (layout_of v).signals_length → Answers v (Request.Signals place bytes) a w → (a ≡ Outcome.Silent) × (w ≡ with_part place bytes.items v) }
    ensures outside { (v w : SlaveValue) (place : ℕ) (bytes : ArrayVec ℕ) (a : Answer) → (layout_of v).signals_length < place + length bytes.items → Answers v (Request.Signals place bytes) a w → (a ≡ Outcome.BadSignals) × (w ≡ v) }
    ensures stays { (v : SlaveValue) (place : ℕ) (bytes : List ℕ) → IsSlave v → place + length bytes ≤ (layout_of v).signals_length
        → (take (length bytes) (drop place (with_part place bytes v).transfer.pages.signals) ≡ bytes)
        × (take place (with_part place bytes v).transfer.pages.signals ≡ take place v.transfer.pages.signals)
        × (drop (place + length bytes) (with_part place bytes v).transfer.pages.signals ≡ drop (place + length bytes) v.transfer.pages.signals) }
{}

/// What a tool uploads at the name of an event channel, to which GET_DAQ_EVENT_INFO leaves the MTA, is that
/// channel's own name; and at the identification, to which GET_ID of kind 0 leaves it, the layout's. An UPLOAD ends
/// with the text, or before. GET_ID tells how long the identification is, and length 0 of a kind that isn't there; of a plain layout
/// that is any other kind.
/// ASAM MCD-1 XCP, protocol layer, description of commands: GET_DAQ_EVENT_INFO, GET_ID, UPLOAD.
pub fn a_text_is_uploaded_as_it_is()
    ensures name { (v w : SlaveValue) (channel place n : ℕ) (bytes : List ℕ) → v.transfer.mta ≡ Mta.Text (TextId.Name channel) place → Accepts v (Command.Upload n) bytes w → (place + n ≤ length (get_or (layout_of v).events channel no_event).name) × (bytes ≡ take n (drop place (get_or (layout_of v).events channel no_event).name)) }
    ensures whole_name { (v m w : SlaveValue) (channel : ℕ) (told bytes : List ℕ) → Accepts v (Command.GetDaqEventInfo channel) told m → Accepts m (Command.Upload (length (get_or (layout_of v).events channel no_event).name)) bytes w → bytes ≡ (get_or (layout_of v).events channel no_event).name }
    ensures id { (v w : SlaveValue) (place n : ℕ) (bytes : List ℕ) → v.transfer.mta ≡ Mta.Text TextId.Id place → Accepts v (Command.Upload n) bytes w → (place + n ≤ length (layout_of v).id) × (bytes ≡ take n (drop place (layout_of v).id)) }
    ensures whole_id { (v m w : SlaveValue) (told bytes : List ℕ) → Accepts v (Command.GetId 0) told m → Accepts m (Command.Upload (length (layout_of v).id)) bytes w → bytes ≡ (layout_of v).id }
    ensures id_told { (v w : SlaveValue) (bytes : List ℕ) → Accepts v (Command.GetId 0) bytes w → bytes ≡ 0 ∷ 0 ∷ 0 ∷ double_bytes (layout_of v).order (length (layout_of v).id) }
    ensures no_text { (v w : SlaveValue) (kind : ℕ) (bytes : List ℕ) → text_of_kind (layout_of v) kind ≡ None → Accepts v (Command.GetId kind) bytes w → bytes ≡ 0 ∷ 0 ∷ 0 ∷ double_bytes (layout_of v).order 0 }
    ensures no_id { (v w : SlaveValue) (kind : ℕ) (bytes : List ℕ) → IsPlain (layout_of v) → kind ≢ 0 → Accepts v (Command.GetId kind) bytes w → bytes ≡ 0 ∷ 0 ∷ 0 ∷ double_bytes (layout_of v).order 0 }
{}

/// A tool gets the A2L file from the slave. GET_ID tells how long its name is (kind 1), the file (kind 4) and what identifies
/// it, its EPK (kind 5), each with length 0 where there is none, and leaves the MTA at its first byte. UPLOADs from there on
/// answer the file, piece by piece.
/// ASAM MCD-1 XCP, protocol layer, description of commands: GET_ID, UPLOAD.
pub fn an_a2l_file_is_uploaded()
    ensures name_told { (v w : SlaveValue) (bytes : List ℕ) → Accepts v (Command.GetId 1) bytes w → bytes ≡ 0 ∷ 0 ∷ 0 ∷ double_bytes (layout_of v).order (length (layout_of v).extras.a2l) }
    ensures file_told { (v w : SlaveValue) (bytes : List ℕ) → Accepts v (Command.GetId 4) bytes w → bytes ≡ 0 ∷ 0 ∷ 0 ∷ double_bytes (layout_of v).order (length (description (layout_of v).extras)) }
    ensures epk_told { (v w : SlaveValue) (bytes : List ℕ) → Accepts v (Command.GetId 5) bytes w → bytes ≡ 0 ∷ 0 ∷ 0 ∷ double_bytes (layout_of v).order (length (epk (layout_of v).extras)) }
    ensures name_start { (v w : SlaveValue) (bytes : List ℕ) → 0 < length (layout_of v).extras.a2l → Accepts v (Command.GetId 1) bytes w → w.transfer.mta ≡ Mta.Text TextId.A2lName 0 }
    ensures file_start { (v w : SlaveValue) (bytes : List ℕ) → 0 < length (description (layout_of v).extras) → Accepts v (Command.GetId 4) bytes w → w.transfer.mta ≡ Mta.Text TextId.A2lFile 0 }
    ensures epk_start { (v w : SlaveValue) (bytes : List ℕ) → 0 < length (epk (layout_of v).extras) → Accepts v (Command.GetId 5) bytes w → w.transfer.mta ≡ Mta.Text TextId.Epk 0 }
    ensures file_part { (v w : SlaveValue) (place n : ℕ) (bytes : List ℕ) → v.transfer.mta ≡ Mta.Text TextId.A2lFile place → Accepts v (Command.Upload n) bytes w → (place + n ≤ length (description (layout_of v).extras)) × (bytes ≡ take n (drop place (description (layout_of v).extras))) }
{}
