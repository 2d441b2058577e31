//! How much is read at most.

/// The most bytes that a page may have.
pub const PAGE_LIMIT: usize = 4_194_304;
