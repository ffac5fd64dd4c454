// Classes and steps, integers, and values as a caller makes them.
mod classes;
mod integers;
mod keys;
mod limits;
mod lookup;
mod order;
mod row;
mod rows;
mod same;
mod written;
