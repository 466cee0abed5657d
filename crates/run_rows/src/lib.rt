//! Rows of what no line of a script shows: whole runs over sources and sinks that fail, and of any words, with how often
//! servants are called; replies that no host sends; lines of output that no script prints, and words that no operation
//! takes; lists of properties.
#![tactic(auto)]

#[cfg(test)]
mod lines;
#[cfg(test)]
mod properties;
#[cfg(test)]
mod replies;
#[cfg(test)]
mod runs;
