// Commands as a whole, and calls of places and consoles.
mod commands;
mod many_records;
mod no_memory;
mod places;
mod ran;
mod real;
mod scripts;
