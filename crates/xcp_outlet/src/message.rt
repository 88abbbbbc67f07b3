//! What goes through the channel.
use xcp_framing::Batch;

/// A batch of packets of one end, or its end mark, which is no batch.
#[derive(Drop)]
pub struct Message {
    pub from_data: bool,
    pub batch: Option<Batch>,
}
