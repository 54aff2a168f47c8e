//! What public calls of the lower crates give, computed by hand or by another program. All code here is tests.
#![tactic(auto)]

#[cfg(test)]
mod blockmap;
#[cfg(test)]
mod catalog;
#[cfg(test)]
mod csource;
#[cfg(test)]
mod derive;
#[cfg(test)]
mod dict;
#[cfg(test)]
mod formula;
#[cfg(test)]
mod line;
#[cfg(test)]
mod mail;
#[cfg(test)]
mod memdisk;
#[cfg(test)]
mod ports;
#[cfg(test)]
mod sets;
