use thiserror::Error;

/// The first damage of a disk, in the order in which it is looked at: a log that does not decode, a
/// page by its number, the slots of the catalogue together, the rows together.
#[derive(Clone, Copy, Debug, PartialEq, Eq, Error)]
pub enum Damage {
    #[error("damaged log")]
    Log,
    #[error("damaged page {0}")]
    Page(u64),
    #[error("damaged catalogue")]
    Catalogue,
    #[error("damaged rows")]
    Rows,
}
