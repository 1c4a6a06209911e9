//! Tests of what `main` has beside the runs of `cats_cmd`.

mod help;
mod version;
mod words;
