// Tables of calls and what CPython answers, one test for each; and lists, bytes and long texts.
mod added;
mod ends;
mod lists;
mod long;
mod made;
mod parts;
mod pieces;
mod row;
mod searches;
mod truths;
