//! Small tests of public calls that neither `text_cases` nor `run_cases` reaches: that they succeed with ample memory,
//! and give what was worked out outside the program.
#![tactic(auto)]

#[cfg(test)]
mod outside;
#[cfg(test)]
mod parts;
#[cfg(test)]
mod sets;
#[cfg(test)]
mod versions;
#[cfg(test)]
mod watch;
