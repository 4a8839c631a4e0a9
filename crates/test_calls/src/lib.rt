//! What no table of descriptions can ask for: values that don't suit their terms, terms and trees that no
//! description stands for, and the calls of an environment.
#![tactic(auto)]

#[cfg(test)]
mod environments;
#[cfg(test)]
mod heights;
#[cfg(test)]
mod lines;
#[cfg(test)]
mod pieces;
#[cfg(test)]
mod prints;
#[cfg(test)]
mod terms;
#[cfg(test)]
mod trees;
