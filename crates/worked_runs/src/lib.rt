//! Tests of whole runs, through the top call: cases and answers from outside.
#![tactic(auto)]

#[cfg(test)]
mod clean;
#[cfg(test)]
mod faults;
#[cfg(test)]
mod kept;
#[cfg(test)]
mod limits;
#[cfg(test)]
mod pages;
#[cfg(test)]
mod records;
#[cfg(test)]
mod rows;
#[cfg(test)]
mod runs;
#[cfg(test)]
mod selectors;
#[cfg(test)]
mod tested;
