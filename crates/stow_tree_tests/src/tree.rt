//! Whole trees: what no clause says of them and of the crates below them.
mod dropping;
mod growing;
mod late;
mod numbered;
pub(crate) mod refusals;
mod run;
mod shapes;
mod small;
mod trees;
mod walking;
