//! Tables of cases, each held to what it says.
mod mark_files;
mod marks;
mod shapes;
mod texts;
mod words;
