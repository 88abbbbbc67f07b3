//! The data packets of a list.
ghost use Rattle.std.specs.Prelude.{◌≡◌, ◌<◌, ◌≤◌, ◌+◌, ◌++◌, ◌∷◌, [], ◌^◌, All, length, take, slice_index_or as get_or, vec_len, vec_capacity, OnOk, OnErr, true, false, nat_lt};
ghost use Rattle.xcp_memory.specs.ClassLimits.{limits_of};
ghost use Rattle.xcp_memory.specs.ComputedAccess.{lies_inside, controller_bytes};
ghost use Rattle.arrayvec.specs.ArrayVec.{array_vec_len};
ghost use Rattle.xcp_daq.specs.DaqLists.{entry_size, first_size, odt_size};
ghost use Rattle.xcp_daq.specs.DaqInvariant.{IsEntry};
ghost use Rattle.xcp_daq.specs.Pools.{joined, parts};
ghost use Rattle.xcp_daq.specs.private.SplicedPools.{total};
ghost use Rattle.xcp_daq.specs.Sample.{element_bytes, entry_bytes, odt_bytes, packet_of, packets_from, stamped_packet, stamped_packets};

use super::Odts;
use crate::element::{Element, lies_inside};
use crate::pools::{cut, rest};
use xcp_memory::{Pages, controller_is_read};
use xcp_packet::{Code, Packet};

/// What an element's place in a packet holds before the element is read.
const ZEROS: [u8; 254] = [0; 254];

impl Odts {
    /// How many packets a list gives, whatever its first PID.
    pub(crate) fn sample_len(&self, i: usize, pages: &Pages) -> usize
        requires list { i < length self.now.lists }
        requires written { All IsEntry (joined (joined self.now.lists)) }
        ensures { result ≡ length (packets_from pages.now 0 (get_or self.now.lists i [])) }
    {
        let (counts, entries) = self.list(i);
        count_packets(counts, entries, pages)
    }

    /// Appends the packets of a list, the first ODT's with a time stamp.
    pub(crate) fn sample(&self, i: usize, stamp: &[u8], pages: &Pages, out: &mut Vec<Packet>)
        requires list { i < length self.now.lists }
        requires fits { All (λ odt. odt_size odt ≤ 254) (get_or self.now.lists i []) }
        requires first { length stamp.now + first_size (get_or self.now.lists i []) ≤ 254 }
        requires written { All IsEntry (joined (joined self.now.lists)) }
        requires room { vec_len out.old + (limits_of self.now.class).odts ≤ vec_capacity out.old + length (joined (take i self.now.lists)) }
        ensures items { out.new.items ≡ out.old.items ++ stamped_packets pages.now (length (joined (take i self.now.lists))) stamp.now (get_or self.now.lists i []) }
        ensures room { vec_len out.new + (limits_of self.now.class).odts ≤ vec_capacity out.new + length (joined (take (i + 1) self.now.lists)) }
        ensures capacity { vec_capacity out.new ≡ vec_capacity out.old }
    {
        let _odts = self.odt_count();
        let first = self.first_pid(i);
        let (counts, entries) = self.list(i);
        sample_stamped(counts, entries, first as u8, stamp, pages, out);
    }
}

/// How many packets ODTs with so many entries each give.
fn count_packets(counts: &[u16], entries: &[Option<Element>], pages: &Pages) -> usize
    requires cut { total counts.now ≤ length entries.now }
    requires few { length entries.now ≤ 4096 }
    requires written { All IsEntry entries.now }
    ensures { result ≡ length (packets_from pages.now 0 (parts counts.now entries.now)) }
{
    let mut at = 0;
    let mut packets = 0;
    for count in counts {
        let n = *count as usize;
        packets += count_packet(cut(entries, at, n), pages);
        at += n;
    }
    packets
}

/// How many packets an ODT gives: one, if an entry of it has bytes.
fn count_packet(entries: &[Option<Element>], pages: &Pages) -> usize
    requires { All IsEntry entries.now }
    ensures { result ≡ length (packet_of 0 (odt_bytes pages.now entries.now)) }
{
    for entry in entries {
        if gives_bytes(entry, pages) {
            return 1;
        }
    }
    0
}

/// Whether an entry gives bytes: it is written, and the controller has its element.
fn gives_bytes(entry: &Option<Element>, pages: &Pages) -> bool
    requires { IsEntry entry.now }
    ensures { result ≡ nat_lt 0 (length (entry_bytes pages.now entry.now)) }
{
    match entry {
        Some(element) => has_bytes(element, pages),
        None => false,
    }
}

/// Whether the controller has bytes at an element: where it lies in one area, all of them.
fn has_bytes(element: &Element, pages: &Pages) -> bool
    requires { 1 ≤ element.now.size }
    ensures { result ≡ nat_lt 0 (length (element_bytes pages.now element.now)) }
{
    pages.known();
    controller_is_read();
    lies_inside(pages.layout(), element.address, element.size)
}

/// Appends the packets of ODTs with so many entries each; the first ODT has this PID, and its packet this time stamp.
fn sample_stamped(
    counts: &[u16],
    entries: &[Option<Element>],
    first: u8,
    stamp: &[u8],
    pages: &Pages,
    out: &mut Vec<Packet>,
)
    requires cut { total counts.now ≤ length entries.now }
    requires few { length entries.now ≤ 4096 }
    requires room { vec_len out.old + length counts.now ≤ vec_capacity out.old }
    requires pids { first + length counts.now ≤ 252 }
    requires written { All IsEntry entries.now }
    requires fits { All (λ odt. odt_size odt ≤ 254) (parts counts.now entries.now) }
    requires first { length stamp.now + first_size (parts counts.now entries.now) ≤ 254 }
    ensures items { out.new.items ≡ out.old.items ++ stamped_packets pages.now first stamp.now (parts counts.now entries.now) }
    ensures len { vec_len out.new ≤ vec_len out.old + length counts.now }
    ensures capacity { vec_capacity out.new ≡ vec_capacity out.old }
{
    if counts.is_empty() {
        return;
    }
    let n = counts[0] as usize;
    push_packet(first, stamp, cut(entries, 0, n), pages, out);
    let others = rest(counts, 1);
    let behind = rest(entries, n);
    sample_odts(others, behind, first + 1, pages, out);
}

/// Appends the packets of ODTs with so many entries each; the first ODT has this PID.
fn sample_odts(
    counts: &[u16],
    entries: &[Option<Element>],
    first: u8,
    pages: &Pages,
    out: &mut Vec<Packet>,
)
    requires cut { total counts.now ≤ length entries.now }
    requires few { length entries.now ≤ 4096 }
    requires room { vec_len out.old + length counts.now ≤ vec_capacity out.old }
    requires pids { first + length counts.now ≤ 252 }
    requires written { All IsEntry entries.now }
    requires fits { All (λ odt. odt_size odt ≤ 254) (parts counts.now entries.now) }
    ensures items { out.new.items ≡ out.old.items ++ packets_from pages.now first (parts counts.now entries.now) }
    ensures len { vec_len out.new ≤ vec_len out.old + length counts.now }
    ensures capacity { vec_capacity out.new ≡ vec_capacity out.old }
{
    let mut at = 0;
    for j in 0..counts.len() {
        let n = counts[j] as usize;
        push_packet(first + j as u8, &[], cut(entries, at, n), pages, out);
        at += n;
    }
}

/// Appends the packet of an ODT with a time stamp before its bytes, if it has bytes.
fn push_packet(
    pid: u8,
    stamp: &[u8],
    entries: &[Option<Element>],
    pages: &Pages,
    out: &mut Vec<Packet>,
)
    requires room { vec_len out.old < vec_capacity out.old }
    requires written { All IsEntry entries.now }
    requires fits { length stamp.now + odt_size entries.now ≤ 254 }
    ensures items { out.new.items ≡ out.old.items ++ stamped_packet pid stamp.now (odt_bytes pages.now entries.now) }
    ensures len { vec_len out.new ≤ vec_len out.old + 1 }
    ensures capacity { vec_capacity out.new ≡ vec_capacity out.old }
{
    let place = out.len();
    out.push_reserved(Packet::new());
    fill(&mut out[place], pid, stamp, entries, pages);
    if out[place].len() == 1 + stamp.len() {
        out.pop();
    }
}

/// Writes a PID, a time stamp and the bytes of an ODT into an empty packet.
fn fill(packet: &mut Packet, pid: u8, stamp: &[u8], entries: &[Option<Element>], pages: &Pages)
    requires empty { packet.old.items ≡ [] }
    requires written { All IsEntry entries.now }
    requires fits { length stamp.now + odt_size entries.now ≤ 254 }
    ensures { packet.new.items ≡ pid ∷ (stamp.now ++ odt_bytes pages.now entries.now) }
{
    packet.push(pid);
    let _ = packet.try_extend_from_slice(stamp);
    for entry in entries {
        append_entry(packet, entry, pages);
    }
}

/// Appends the bytes of an entry.
fn append_entry(packet: &mut Packet, entry: &Option<Element>, pages: &Pages)
    requires lawful { IsEntry entry.now }
    requires room { array_vec_len packet.old + entry_size entry.now ≤ 255 }
    ensures { packet.new.items ≡ packet.old.items ++ entry_bytes pages.now entry.now }
{
    if let Some(element) = entry {
        append(packet, element, pages);
    }
}

/// Appends what the controller has at an element.
fn append(packet: &mut Packet, element: &Element, pages: &Pages)
    requires some { 1 ≤ element.now.size }
    requires short { element.now.size ≤ 254 }
    requires room { array_vec_len packet.old + element.now.size ≤ 255 }
    ensures { packet.new.items ≡ packet.old.items ++ element_bytes pages.now element.now }
{
    let place = packet.len();
    let size = element.size as usize;
    extend(packet, size);
    if read_at(packet, place, size, element.address, pages).is_err() {
        packet.truncate(place);
    }
}

/// Makes room for n bytes behind the others.
fn extend(packet: &mut Packet, n: usize)
    requires short { n ≤ 254 }
    requires room { array_vec_len packet.old + n ≤ 255 }
    ensures { packet.new.items ≡ packet.old.items ++ take n ZEROS }
{
    let _ = packet.try_extend_from_slice(&ZEROS[..n]);
}

/// Reads the n bytes that the controller has from an address on, into the last n bytes.
fn read_at(
    bytes: &mut [u8],
    place: usize,
    n: usize,
    address: u32,
    pages: &Pages,
) -> Result<(), Code>
    requires some { 1 ≤ n }
    requires end { place + n ≡ length bytes.old }
    requires fits { length bytes.old < 2 ^ 32 }
    ensures ok { OnOk result ((lies_inside pages.now.layout address n ≡ true) × (bytes.new ≡ take place bytes.old ++ controller_bytes pages.now address n)) }
    ensures refused { OnErr result ((lies_inside pages.now.layout address n ≡ false) × (bytes.new ≡ bytes.old)) }
{
    pages.read_ecu(address, &mut bytes[place..place + n])
}
