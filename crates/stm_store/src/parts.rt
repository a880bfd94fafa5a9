//! A list of cells in parts, each of which is a list of pages.

use crate::page::Page;
use crate::paged_list::Paged;

/// A part of a list of cells: 64 pages.
pub(crate) type Part = Paged<Page>;

/// A list of cells in parts of 4096.
pub(crate) type Parts = Paged<Part>;
