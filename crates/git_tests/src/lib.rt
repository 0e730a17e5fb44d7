//! Tests of byte_devices, lending_readers, git_names, git_paths and git_objects. There is no other code here.
#![tactic(auto)]

#[cfg(test)]
mod devices;
#[cfg(test)]
mod names;
#[cfg(test)]
mod objects;
#[cfg(test)]
mod paths;
#[cfg(test)]
mod readers;
