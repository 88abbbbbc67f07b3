//! Where tools reach a slave, as far as the words don't say it.

/// The host.
pub const DEFAULT_HOST: &str = "127.0.0.1";

/// The port.
pub const DEFAULT_PORT: u16 = 5555;

/// The digits of the port.
pub const DEFAULT_PORT_DIGITS: &str = "5555";
