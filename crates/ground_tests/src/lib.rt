//! Tests of the ground: files and output, lists and names, names by number, indexes, and numbers at the two widths.
//! They stand in a crate of their own, above these, so that none is proved a second time with its tests.
#![tactic(auto)]

#[cfg(test)]
mod files;
#[cfg(test)]
mod indexes;
#[cfg(test)]
mod lists;
#[cfg(test)]
mod names;
#[cfg(test)]
mod widths;
#[cfg(test)]
mod writers;
