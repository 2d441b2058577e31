//! Tests of what reads and writes pages, through public calls: cases and answers from outside.
#![tactic(auto)]

#[cfg(test)]
mod arenas;
#[cfg(test)]
mod axes;
#[cfg(test)]
mod edges;
#[cfg(test)]
mod markup;
#[cfg(test)]
mod references;
#[cfg(test)]
mod texts;
#[cfg(test)]
mod tokens;
#[cfg(test)]
mod trees;
#[cfg(test)]
mod written;
