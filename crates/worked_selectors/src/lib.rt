//! Tests of what reads selectors, matches by them and prints them as XPath, through public calls: cases and answers from outside.
#![tactic(auto)]

#[cfg(test)]
mod matching;
#[cfg(test)]
mod parsing;
#[cfg(test)]
mod printing;
#[cfg(test)]
mod specificity;
#[cfg(test)]
mod tokens;
