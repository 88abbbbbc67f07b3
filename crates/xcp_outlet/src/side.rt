//! The two sides of an outlet.
ghost use Rattle.std.specs.Prelude.{Bool};

/// A side of an outlet, as the type of its end says it.
pub trait Side {
    /// Whether it is that of the data packets.
    ghost is_data: { Bool };
}

/// The side of what a slave answers.
pub struct Replies;

impl Side for Replies {
    ghost use Rattle.std.specs.Prelude.{false};

    ghost is_data = { false };
}

/// The side of the data packets, which a slave samples.
pub struct DataSide;

impl Side for DataSide {
    ghost use Rattle.std.specs.Prelude.{true};

    ghost is_data = { true };
}
