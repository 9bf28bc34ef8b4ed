//! Lines and lists as they are read: each letter, each fault at each column that it can have, and the ends of a text.
#![tactic(auto)]

#[cfg(test)]
mod faulty;
#[cfg(test)]
mod feeds;
#[cfg(test)]
mod runs;
#[cfg(test)]
mod says;
