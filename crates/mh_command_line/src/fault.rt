//! Why a command line gave no order. The texts are written twice, for `Display` here and in `mh_program`, whose
//! contract names them: a derived `Display` has no clause. A test compares them.
use mh_orders::order::ConfigOption;
use thiserror::Error;

/// Why a command line gave no order. The text of words that are refused is that of `clap`, which ends with its line.
#[derive(Debug, Drop, Error)]
pub enum LineFault {
    #[error("{0}")]
    Words(clap::Error),
    /// A word isn't UTF-8.
    #[error("metroheap: a word is not text\n")]
    NotText,
    /// The number of this option is outside the limits of a configuration.
    #[error("metroheap: bad configuration: {0}\n")]
    Configuration(ConfigOption),
    #[error("metroheap: no memory\n")]
    NoMemory,
}
