//! Laws of what a request changes, and of what it leaves alone. Each is the contract of a function
//! with an empty body.
ghost use Rattle.std.specs.Prelude.{◌≡◌, ◌≢◌, ℕ, List, Some, None, [], false, length, true};
ghost use Rattle.xcp_daq.specs.DaqLists.{DaqValue};
ghost use Rattle.xcp_memory.specs.Layout.{IsPlain};
ghost use Rattle.xcp_memory.specs.Memory.{Writes};
ghost use Rattle.xcp_memory.specs.Pages.{segment_at};
ghost use Rattle.xcp_packet.specs.declared.Command.{Command};
ghost use Rattle.xcp_slave.specs.AcceptedCommands.{Accepts};
ghost use Rattle.xcp_slave.specs.CodesByEffect.{HandsNothing, IsBeside, IsNoEvent, list_codes, mode_codes, mta_codes, session_codes, store_codes, switch_codes};
ghost use Rattle.xcp_slave.specs.SlaveInvariant.{IsSlave};
ghost use Rattle.xcp_slave.specs.Step.{Answers};
ghost use Rattle.xcp_slave.specs.SlaveValue.{SlaveValue, layout_of};
ghost use Rattle.xcp_slave.specs.Outcomes.{Answer};
ghost use Rattle.xcp_slave.specs.declared.request.Request.{Request};
ghost use Rattle.xcp_transfer.specs.declared.Mta.{Mta};
ghost use Rattle.xcp_transfer.specs.declared.TextId.{TextId};
ghost use Rattle.xcp_transfer.specs.Uploads.{text_of_kind};

/// GET_ID and GET_DAQ_EVENT_INFO set the MTA to their text and change nothing else, GET_ID of a kind
/// that isn't there not even the MTA; MODIFY_BITS is a write of four bytes and changes nothing else. A
/// block under way is given up by each of them.
pub fn requests_beside_change_their_own()
    ensures id { (v w : SlaveValue) (bytes : List ℕ) → Accepts v (Command.GetId 0) bytes w → w ≡ record v { transfer = record v.transfer { mta = Mta.Text TextId.Id 0; block = None } } }
    ensures text { (v w : SlaveValue) (kind : ℕ) (id : TextId) (bytes : List ℕ) → text_of_kind (layout_of v) kind ≡ Some id → Accepts v (Command.GetId kind) bytes w → w ≡ record v { transfer = record v.transfer { mta = Mta.Text id 0; block = None } } }
    ensures no_text { (v w : SlaveValue) (kind : ℕ) (bytes : List ℕ) → text_of_kind (layout_of v) kind ≡ None → Accepts v (Command.GetId kind) bytes w → w ≡ record v { transfer = record v.transfer { block = None } } }
    ensures no_id { (v w : SlaveValue) (kind : ℕ) (bytes : List ℕ) → IsPlain (layout_of v) → kind ≢ 0 → Accepts v (Command.GetId kind) bytes w → w ≡ record v { transfer = record v.transfer { block = None } } }
    ensures event_info { (v w : SlaveValue) (channel : ℕ) (bytes : List ℕ) → Accepts v (Command.GetDaqEventInfo channel) bytes w → w ≡ record v { transfer = record v.transfer { mta = Mta.Text (TextId.Name channel) 0; block = None } } }
    ensures bits { (v w : SlaveValue) (s ma mx a : ℕ) (bytes : List ℕ) → IsSlave v → v.transfer.mta ≡ Mta.Memory a → Accepts v (Command.ModifyBits s ma mx) bytes w → (four : List ℕ) × (length four ≡ 4) × Writes v.transfer.pages a four w.transfer.pages × (w ≡ record v { transfer = record v.transfer { pages = w.transfer.pages; block = None } }) }
{}

/// A request that moves no MTA, that ends or begins no session, that changes no list, or that asks for no
/// store keeps the MTA, the session, the lists, or the store request.
pub fn a_session_changes_by_its_own_requests()
    ensures mta { (v : SlaveValue) (q : Request) (a : Answer) (w : SlaveValue) → IsBeside mta_codes q → q ≢ Request.Hangup → Answers v q a w → w.transfer.mta ≡ v.transfer.mta }
    ensures session { (v : SlaveValue) (q : Request) (a : Answer) (w : SlaveValue) → IsBeside session_codes q → q ≢ Request.Hangup → Answers v q a w → w.connected ≡ v.connected }
    ensures lists { (v : SlaveValue) (q : Request) (a : Answer) (w : SlaveValue) → IsBeside list_codes q → IsNoEvent q → q ≢ Request.Hangup → Answers v q a w → w.daq ≡ v.daq }
    ensures store { (v : SlaveValue) (q : Request) (a : Answer) (w : SlaveValue) → IsBeside store_codes q → q ≢ Request.FinishStore → Answers v q a w → w.store ≡ v.store }
{}

/// SET_CAL_PAGE alone changes page numbers, SET_SEGMENT_MODE alone FREEZE modes, and an event alone the
/// signals.
pub fn numbers_modes_and_signals_change_by_their_own()
    ensures numbers { (v : SlaveValue) (q : Request) (a : Answer) (w : SlaveValue) (i : ℕ) → IsBeside switch_codes q → Answers v q a w → ((segment_at w.transfer.pages i).ecu ≡ (segment_at v.transfer.pages i).ecu) × ((segment_at w.transfer.pages i).xcp ≡ (segment_at v.transfer.pages i).xcp) }
    ensures modes { (v : SlaveValue) (q : Request) (a : Answer) (w : SlaveValue) (i : ℕ) → IsBeside mode_codes q → Answers v q a w → (segment_at w.transfer.pages i).freeze ≡ (segment_at v.transfer.pages i).freeze }
    ensures signals { (v : SlaveValue) (q : Request) (a : Answer) (w : SlaveValue) → HandsNothing q → Answers v q a w → w.transfer.pages.signals ≡ v.transfer.pages.signals }
{}

/// CONNECT begins a session with the MTA nowhere and no block under way, and changes nothing else, also
/// where a tool is connected already. A session's end, by DISCONNECT or a hangup, also takes the lists
/// and the packets that wait, and nobody has to be told of a lost sample; it leaves pages and their
/// numbers, modes, signals and a store request.
pub fn sessions_begin_and_end()
    ensures connect { (v w : SlaveValue) (mode : ℕ) (bytes : List ℕ) → Accepts v (Command.Connect mode) bytes w → w ≡ record v { connected = true; transfer = record v.transfer { mta = Mta.Nowhere; block = None } } }
    ensures disconnect { (v w : SlaveValue) (bytes : List ℕ) → Accepts v Command.Disconnect bytes w → w ≡ record v { connected = false; transfer = record v.transfer { mta = Mta.Nowhere; block = None }; daq = record { class = v.daq.class; lists = []; pointer = None; last = None }; outbox = []; overloaded = false } }
    ensures hangup { (v w : SlaveValue) (a : Answer) → Answers v Request.Hangup a w → w ≡ record v { connected = false; transfer = record v.transfer { mta = Mta.Nowhere; block = None }; daq = record { class = v.daq.class; lists = []; pointer = None; last = None }; outbox = []; overloaded = false } }
{}
