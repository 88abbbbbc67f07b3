//! Why a text gives no layout.
ghost use Rattle.std.specs.Prelude.{◌≡◌};

use std::alloc::{AllocError, AllocFailed};
use thiserror::Error;
use xcp_memory::{Area, Key, LayoutFault};

/// Why a text gives no layout.
#[derive(Clone, Copy, Debug, PartialEq, Eq, Error)]
pub enum ConfigError {
    /// The text is no TOML document.
    #[error("the text is no TOML document")]
    Text,
    /// A key that has to be there isn't.
    #[error("{0:?} is missing")]
    Missing(Key),
    /// A value of another type than its key wants.
    #[error("{0:?} is of the wrong type")]
    Kind(Key),
    /// A value out of its range.
    #[error("{0:?} is out of its range")]
    Range(Key),
    /// Two areas that share an address.
    #[error("{0:?} and {1:?} share an address")]
    Overlap(Area, Area),
    /// More than there is room for.
    #[error("too many: {0:?}")]
    TooMany(Key),
    /// An allocation failed.
    #[error("out of memory")]
    Memory,
}

impl ConfigError {
    ghost use Rattle.xcp_config.specs.FaultNumbers.{number_of, error_of};

    /// The number that a user is told: 1 to 7.
    pub fn number(&self) -> u8
        ensures { result ≡ number_of self.now }
    {
        match self {
            ConfigError::Text => 1,
            ConfigError::Missing(_) => 2,
            ConfigError::Kind(_) => 3,
            ConfigError::Range(_) => 4,
            ConfigError::Overlap(_, _) => 5,
            ConfigError::TooMany(_) => 6,
            ConfigError::Memory => 7,
        }
    }

    /// A limit of a layout's parts that is broken, as a fault of a configuration.
    pub(crate) fn of_limit(fault: LayoutFault) -> ConfigError
        ensures { result ≡ error_of fault }
    {
        match fault {
            LayoutFault::Range(key) => ConfigError::Range(key),
            LayoutFault::Overlap(first, other) => ConfigError::Overlap(first, other),
            LayoutFault::TooMany(key) => ConfigError::TooMany(key),
        }
    }
}

impl From<AllocError> for ConfigError {
    ghost use Rattle.xcp_config.specs.declared.config_error.ConfigError.TheVariants.{Memory};

    ghost from_gives = { λ _ e. e ≡ Memory };

    fn from(_: AllocError) -> ConfigError {
        ConfigError::Memory
    }
}

impl<T: Drop> From<AllocFailed<T>> for ConfigError {
    ghost use Rattle.xcp_config.specs.declared.config_error.ConfigError.TheVariants.{Memory};

    ghost from_gives = { λ _ e. e ≡ Memory };

    fn from(_: AllocFailed<T>) -> ConfigError {
        ConfigError::Memory
    }
}
