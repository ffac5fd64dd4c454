// Trees, and the tokens of texts.
mod tokens;
mod trees;
