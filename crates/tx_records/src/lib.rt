//! Sources and outputs: the cell rule, the records of a file, and the bytes that are written of rows.
#![tactic(auto)]

mod cell;
mod csv_source;
mod dialect;
mod faulty;
mod fields;
mod output;
mod raw;
mod reading;

pub use cell::{CellError, print_cell, printed_cells_read_back, read_cell};
pub use csv_source::{CsvSource, source};
pub use output::{Output, write_header, write_row};
pub use raw::RawRows;
