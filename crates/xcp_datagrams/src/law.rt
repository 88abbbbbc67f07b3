//! Laws of frames in datagrams.
ghost use Rattle.xcp_datagrams.specs.Datagrams.{DatagramIsAStream, FrontsAreAStream, PacketsInDatagrams};

/// Does nothing: its contract says that the frames of a datagram are those that the same bytes have as a stream.
pub fn a_datagram_means_what_its_bytes_mean()
    ensures { DatagramIsAStream }
{}

/// Does nothing: its contract says that the fronts of datagrams, one behind another, are a stream of the frames of each.
pub fn datagrams_are_one_stream()
    ensures { FrontsAreAStream }
{}

/// Does nothing: its contract says that each packet that goes out in datagrams of whole frames stands in exactly one of them, in order.
pub fn packets_stand_in_datagrams()
    ensures { PacketsInDatagrams }
{}
