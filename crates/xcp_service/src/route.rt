//! What a post is known by.
ghost use Rattle.relay.specs.Ends.{RelayId};

use std::marker::Brand;

/// A name for one post: it names the relay by which chapters and receipts go to their keeper. What goes to another thread, or lies
/// under a lock, is known by its type alone, so the types of a post and of its ends carry this name.
pub trait Route {
    ghost relay: { RelayId };
}

impl Route for Brand {
    ghost use Rattle.relay.specs.Ends.{no_relay};

    ghost relay = { no_relay };
}
