//! Tests of XPath, of scripts and of their lines, through public calls: cases and answers from outside.
#![tactic(auto)]

#[cfg(test)]
mod chains;
#[cfg(test)]
mod evaluation;
#[cfg(test)]
mod expressions;
#[cfg(test)]
mod functions;
#[cfg(test)]
mod lines;
#[cfg(test)]
mod refusals;
#[cfg(test)]
mod scripts;
#[cfg(test)]
mod stored;
#[cfg(test)]
mod tokens;
#[cfg(test)]
mod trees;
#[cfg(test)]
mod values;
