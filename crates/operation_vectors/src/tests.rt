// Operators, and functions, methods and walks, on values.
mod functions;
mod operations;
