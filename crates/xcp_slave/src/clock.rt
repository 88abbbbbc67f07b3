//! Laws of the time and of time stamps. Each is the contract of a function with an empty body.
ghost use Rattle.std.specs.Prelude.{◌≡◌, ◌≢◌, ◌≤◌, ◌==◌, ◌↔◌, ◌⊎◌, ◌+◌, ℕ, List, [], ◌∷◌, Option, true, if◌then◌else◌};
ghost use Rattle.arrayvec.specs.ArrayVec.{ArrayVec};
ghost use Rattle.xcp_packet.specs.ByteOrder.{byte_at};
ghost use Rattle.xcp_packet.specs.declared.Stamp.{Stamp};
ghost use Rattle.xcp_memory.specs.Layout.{LayoutValue};
ghost use Rattle.xcp_memory.specs.Pages.{PagesValue};
ghost use Rattle.xcp_daq.specs.declared.Element.{Element};
ghost use Rattle.xcp_daq.specs.DaqLists.{DaqList, any_large, greatest_size, has_large_odt, list_at};
ghost use Rattle.xcp_daq.specs.DaqInfo.{daq_properties, timestamp_mode, timestamp_ticks};
ghost use Rattle.xcp_daq.specs.Configuring.{is_mode};
ghost use Rattle.xcp_daq.specs.Sample.{stamp_of};
ghost use Rattle.xcp_slave.specs.Outcomes.{Answer};
ghost use Rattle.xcp_slave.specs.declared.outcome.Outcome.{Outcome};
ghost use Rattle.xcp_slave.specs.declared.exchange.Exchange.{Exchange};
ghost use Rattle.xcp_slave.specs.declared.request.Request.{Request};
ghost use Rattle.xcp_slave.specs.Run.{Run};
ghost use Rattle.xcp_slave.specs.SampledBytes.{ListPackets, OdtPackets};
ghost use Rattle.xcp_slave.specs.SlaveClock.{IsTimeless};
ghost use Rattle.xcp_slave.specs.SlaveInvariant.{IsSlave};
ghost use Rattle.xcp_slave.specs.SlaveValue.{SlaveValue, layout_of, noblock};
ghost use Rattle.xcp_slave.specs.Step.{Answers};

/// A slave's time goes on and never back: told a time it has the later of its own and that one, and
/// nothing else of it changes; no other request changes its time. So the time stamps of a list's samples,
/// which are of the times at which their events came, never go back over a run.
/// ASAM MCD-1 XCP, protocol layer: time stamps.
pub fn the_time_never_goes_back()
    ensures told { (v : SlaveValue) (time : ℕ) (a : Answer) (w : SlaveValue) → Answers v (Request.Time time) a w → (time ≤ w.time) × (v.time ≤ w.time) × ((w.time ≡ time) ⊎ (w.time ≡ v.time)) }
    ensures alone { (v : SlaveValue) (time : ℕ) (a : Answer) (w : SlaveValue) → Answers v (Request.Time time) a w → (a ≡ Outcome.Silent) × (w ≡ record v { time = w.time }) }
    ensures others { (v : SlaveValue) (q : Request) (a : Answer) (w : SlaveValue) → IsTimeless q → Answers v q a w → w.time ≡ v.time }
    ensures run { (v : SlaveValue) (xs : List Exchange) (w : SlaveValue) → Run v xs w → v.time ≤ w.time }
{}

/// A list without time stamps gives the packets of its ODTs with nothing between PID and bytes, and is
/// too large exactly where one of its ODTs has more than MAX_DTO - 1 bytes.
pub fn a_list_without_time_stamps_has_none()
    ensures none { (pages : PagesValue) (time : ℕ) (l : DaqList) → l.stamp ≡ Stamp.Without → stamp_of pages time l ≡ [] }
    ensures packets { (pages : PagesValue) (pid : ℕ) (odts : List (List (Option Element))) (packets : List (ArrayVec ℕ)) → ListPackets pages pid [] odts packets ↔ OdtPackets pages pid odts packets }
    ensures room { (layout : LayoutValue) (l : DaqList) → l.stamp ≡ Stamp.Without → has_large_odt layout l ≡ any_large (greatest_size layout) l.odts }
{}

/// Where the layout has no clock, no list has time stamps, SET_DAQ_LIST_MODE takes no mode but 0,
/// GET_DAQ_CLOCK is an unknown command, and nothing tells of a clock.
pub fn a_layout_without_a_clock_has_no_time_stamps()
    ensures lists { (v : SlaveValue) (i : ℕ) → IsSlave v → (layout_of v).clock.stamp ≡ Stamp.Without → (list_at v.daq i).stamp ≡ Stamp.Without }
    ensures modes { (layout : LayoutValue) (mode : ℕ) → layout.clock.stamp ≡ Stamp.Without → is_mode layout mode ≡ (mode == 0) }
    ensures clock { (v : SlaveValue) (p : ArrayVec ℕ) (a : Answer) (w : SlaveValue) → (layout_of v).clock.stamp ≡ Stamp.Without → v.connected ≡ true → byte_at 0 p.items ≡ 0xDC → p.items ≢ [] → Answers v (Request.Command p) a w → (a ≡ Outcome.Packets ((0xFE ∷ 0x20 ∷ []) ∷ [])) × (w ≡ noblock v) }
    ensures properties { (layout : LayoutValue) → layout.clock.stamp ≡ Stamp.Without → daq_properties layout ≡ 0x03 + (if layout.extras.tells_overload then 0x80 else 0) }
    ensures resolution { (layout : LayoutValue) → layout.clock.stamp ≡ Stamp.Without → (timestamp_mode layout.clock ≡ 0) × (timestamp_ticks layout.clock ≡ 0) }
{}
