//! Tests of the files of objects, of images that are read, written and loaded, of the listing of a large image, of link
//! plans and of links. They stand in a crate of their own, above what they try, so that none of that is proved a second
//! time with them.
#![tactic(auto)]

#[cfg(test)]
mod digits;
#[cfg(test)]
mod image_files;
#[cfg(test)]
mod image_loading;
#[cfg(test)]
mod image_reading;
#[cfg(test)]
mod image_writing;
#[cfg(test)]
mod images;
#[cfg(test)]
mod links;
#[cfg(test)]
mod listings;
#[cfg(test)]
mod objects;
#[cfg(test)]
mod other_linkers;
#[cfg(test)]
mod plans;
