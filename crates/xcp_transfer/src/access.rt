//! Reads and writes of the pages at a memory transfer address (MTA).
ghost use Rattle.std.specs.Prelude.{◌≡◌, ◌≤◌, ◌<◌, ◌+◌, ◌∷◌, length, drop, take, true, false, None, Some, IfOk, OnOk, IfErr, nat_le};
ghost use Rattle.xcp_memory.specs.ComputedAccess.{lies_inside, tool_bytes, write_refusal, pages_written};
ghost use Rattle.xcp_packet.specs.ByteOrder.{double_at, double_bytes};
ghost use Rattle.xcp_transfer.specs.TransferValue.{text_of, IsText, IsMta};
ghost use Rattle.xcp_transfer.specs.MtaAccess.{is_readable, sum_refusal_at, sum_at, bytes_at, write_refusal_at, written_at, moved};

use crate::{Mta, TextId};
use xcp_memory::{Layout, Pages};
use xcp_packet::{Code, Packet, write_blank, write_zeros};

/// Reads n bytes from an MTA on into a packet, as the reply that tells them, and answers the MTA
/// behind them. `AccessDenied` where they don't lie in one area, or a text has fewer left.
pub(crate) fn read(pages: &Pages, mta: Mta, n: u8, packet: &mut Packet) -> Result<Mta, Code>
    requires some { 0 < n }
    requires most { n ≤ 254 }
    requires there { IsMta pages.now.layout mta }
    ensures ok { IfOk result (λ next. (is_readable pages.now mta n ≡ true) × (packet.new.items ≡ 0xFF ∷ bytes_at pages.now mta n) × (next ≡ moved mta n)) }
    ensures next { IfOk result (λ next. IsMta pages.now.layout next) }
    ensures long { IfOk result (λ next. length (bytes_at pages.now mta n) ≡ n) }
    ensures refused { IfErr result (λ code. (is_readable pages.now mta n ≡ false) × (code ≡ Code.AccessDenied)) }
{
    write_blank(packet, n);
    read_through(pages, mta, &mut packet.as_mut_slice()[1..])
}

/// Reads n bytes from an MTA on into a packet, as the data of a block, and answers the MTA behind
/// them. Refused as `read` is.
pub(crate) fn read_block(pages: &Pages, mta: Mta, n: u8, packet: &mut Packet) -> Result<Mta, Code>
    requires some { 0 < n }
    requires there { IsMta pages.now.layout mta }
    ensures ok { IfOk result (λ next. (is_readable pages.now mta n ≡ true) × (packet.new.items ≡ bytes_at pages.now mta n) × (next ≡ moved mta n)) }
    ensures next { IfOk result (λ next. IsMta pages.now.layout next) }
    ensures refused { IfErr result (λ code. (is_readable pages.now mta n ≡ false) × (code ≡ Code.AccessDenied)) }
{
    write_zeros(packet, n);
    read_through(pages, mta, packet.as_mut_slice())
}

/// Reads as many bytes as the buffer has.
fn read_through(pages: &Pages, mta: Mta, buffer: &mut [u8]) -> Result<Mta, Code>
    requires some { 0 < length buffer.old }
    requires most { length buffer.old ≤ 255 }
    requires there { IsMta pages.now.layout mta }
    ensures ok { IfOk result (λ next. (is_readable pages.now mta (length buffer.old) ≡ true) × (buffer.new ≡ bytes_at pages.now mta (length buffer.old)) × (next ≡ moved mta (length buffer.old))) }
    ensures next { IfOk result (λ next. IsMta pages.now.layout next) }
    ensures long { IfOk result (λ next. length (bytes_at pages.now mta (length buffer.old)) ≡ length buffer.old) }
    ensures refused { IfErr result (λ code. (is_readable pages.now mta (length buffer.old) ≡ false) × (code ≡ Code.AccessDenied)) }
{
    let n = buffer.len() as u8;
    match mta {
        Mta::Nowhere => Err(Code::AccessDenied),
        Mta::Memory(address) => {
            read_memory(pages, address, buffer)?;
            Ok(Mta::Memory(address + u32::from(n)))
        }
        Mta::Text(id, place) => {
            read_text(pages.layout(), id, place, buffer)?;
            Ok(Mta::Text(id, place + u32::from(n)))
        }
    }
}

#[tactic(auto, using(crate::proofs::AreaEndLemmas::inside_last))]
fn read_memory(pages: &Pages, address: u32, buffer: &mut [u8]) -> Result<(), Code>
    requires some { 0 < length buffer.old }
    requires most { length buffer.old ≤ 255 }
    ensures ok { OnOk result ((lies_inside pages.now.layout address (length buffer.old) ≡ true) × (buffer.new ≡ tool_bytes pages.now address (length buffer.old))) }
    ensures last { OnOk result (address + length buffer.old ≤ 0xFFFF_FFFF) }
    ensures refused { IfErr result (λ code. (lies_inside pages.now.layout address (length buffer.old) ≡ false) × (code ≡ Code.AccessDenied)) }
{
    pages.known();
    pages.read_xcp(address, buffer)?;
    Ok(())
}

fn read_text(layout: &Layout, id: TextId, place: u32, buffer: &mut [u8]) -> Result<(), Code>
    requires text { IsText layout.now id }
    requires most { length buffer.old ≤ 255 }
    ensures ok { OnOk result ((nat_le (place + length buffer.old) (length (text_of layout.now id)) ≡ true) × (buffer.new ≡ take (length buffer.old) (drop place (text_of layout.now id)))) }
    ensures last { OnOk result ((place + length buffer.old ≤ length (text_of layout.now id)) × (place + length buffer.old ≤ 1048576)) }
    ensures refused { IfErr result (λ code. (nat_le (place + length buffer.old) (length (text_of layout.now id)) ≡ false) × (code ≡ Code.AccessDenied)) }
{
    let text = text(layout, id);
    let place = place as usize;
    let end = place + buffer.len();
    if end > text.len() {
        return Err(Code::AccessDenied);
    }
    buffer.copy_from_slice(&text[place..end]);
    Ok(())
}

/// Sums up `size` bytes from an MTA on: the checksum, and the MTA behind them. `OutOfRange` where
/// the layout's type of checksum has no such size, then `AccessDenied` where the bytes don't lie in
/// one area, also nowhere and at a text.
#[tactic(auto, using(crate::proofs::AreaEndLemmas::summed_last))]
pub(crate) fn checksum(pages: &Pages, mta: Mta, size: u32) -> Result<(u32, Mta), Code>
    ensures ok { IfOk result (λ r. (sum_refusal_at pages.now mta size ≡ None) × (r.0 ≡ sum_at pages.now mta size) × (r.1 ≡ moved mta size)) }
    ensures next { IfOk result (λ r. IsMta pages.now.layout r.1) }
    ensures refused { IfErr result (λ code. sum_refusal_at pages.now mta size ≡ Some code) }
{
    let Mta::Memory(address) = mta else {
        pages.layout().checksum_kind().check_size(size)?;
        return Err(Code::AccessDenied);
    };
    pages.known();
    let sum = pages.checksum(address, size)?;
    Ok((sum, Mta::Memory(address + size)))
}

/// The bytes of a text.
pub(crate) fn text(layout: &Layout, id: TextId) -> &[u8]
    requires { IsText layout.now id }
    ensures value { result.now ≡ text_of layout.now id }
    ensures most { length result.now ≤ 1048576 }
{
    match id {
        TextId::Id => layout.id(),
        TextId::Name(event) => layout.event_name(event as usize),
        TextId::A2lName => layout.extras().a2l(),
        TextId::A2lFile => layout.extras().description(),
        TextId::Epk => layout.extras().epk(),
    }
}

/// The address of n bytes at an MTA that may be written. `AccessDenied` nowhere and where they
/// don't lie in one area, then `WriteProtected` at a text, at the signals and where the tool has
/// page 0.
pub(crate) fn writable(pages: &Pages, mta: Mta, n: u8) -> Result<u32, Code>
    requires { 0 < n }
    ensures ok { IfOk result (λ address. (mta ≡ Mta.Memory address) × (write_refusal pages.now address n ≡ None)) }
    ensures refused { IfErr result (λ code. write_refusal_at pages.now mta n ≡ Some code) }
{
    match mta {
        Mta::Nowhere => Err(Code::AccessDenied),
        Mta::Memory(address) => {
            pages.may_write(address, n as usize)?;
            Ok(address)
        }
        Mta::Text(_, _) => Err(Code::WriteProtected),
    }
}

/// Writes bytes from an MTA on, and answers the MTA behind them. Refused as `writable` is.
pub(crate) fn write(pages: &mut Pages, mta: Mta, bytes: &[u8]) -> Result<Mta, Code>
    requires some { 0 < length bytes.now }
    requires most { length bytes.now ≤ 255 }
    ensures ok { IfOk result (λ next. (write_refusal_at pages.old mta (length bytes.now) ≡ None) × (pages.new ≡ written_at pages.old mta bytes.now) × (next ≡ moved mta (length bytes.now))) }
    ensures next { IfOk result (λ next. IsMta pages.new.layout next) }
    ensures refused { IfErr result (λ code. (write_refusal_at pages.old mta (length bytes.now) ≡ Some code) × (pages.new ≡ pages.old)) }
{
    let address = writable(pages, mta, bytes.len() as u8)?;
    Ok(write_allowed(pages, address, bytes))
}

#[tactic(auto, using(crate::proofs::AreaEndLemmas::allowed_last))]
/// Writes bytes where they may be written, and answers the MTA behind them.
pub(crate) fn write_allowed(pages: &mut Pages, address: u32, bytes: &[u8]) -> Mta
    requires some { 0 < length bytes.now }
    requires most { length bytes.now ≤ 255 }
    requires allowed { write_refusal pages.old address (length bytes.now) ≡ None }
    ensures written { pages.new ≡ pages_written pages.old address bytes.now }
    ensures next { result ≡ Mta.Memory (address + length bytes.now) }
{
    pages.known();
    let _ = pages.write_xcp(address, bytes);
    Mta::Memory(address + bytes.len() as u32)
}

/// The double word at an address, where four bytes may be written, in the layout's byte order.
pub(crate) fn read_double(pages: &Pages, address: u32) -> u32
    requires { write_refusal pages.now address 4 ≡ None }
    ensures { result ≡ double_at pages.now.layout.order 0 (tool_bytes pages.now address 4) }
{
    let mut bytes = [0; 4];
    let _ = pages.read_xcp(address, &mut bytes);
    pages.layout().order().double_at(&bytes, 0)
}

/// Makes a double word stand at an address, where four bytes may be written, in the layout's byte
/// order.
pub(crate) fn write_double(pages: &mut Pages, address: u32, value: u32)
    requires { write_refusal pages.old address 4 ≡ None }
    ensures { pages.new ≡ pages_written pages.old address (double_bytes pages.old.layout.order value) }
{
    let bytes = pages.layout().order().double_bytes(value);
    let _ = pages.write_xcp(address, &bytes);
}
