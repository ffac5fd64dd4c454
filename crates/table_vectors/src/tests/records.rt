// Cells, files and rows as a caller makes them.
mod cells;
mod files;
mod rows;
