//! Tests of the parts: each public call where memory is ample, tables of texts and scripts, and limits from both sides.
#![tactic(auto)]

#[cfg(test)]
mod base;
#[cfg(test)]
mod block;
#[cfg(test)]
mod copies;
#[cfg(test)]
mod entries;
#[cfg(test)]
mod label;
#[cfg(test)]
mod read;
#[cfg(test)]
mod readable;
#[cfg(test)]
mod split;
#[cfg(test)]
mod tok;
#[cfg(test)]
mod wire;
