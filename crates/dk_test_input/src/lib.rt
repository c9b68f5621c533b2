//! Tests of the public calls that read and write a trace, from values and lines up to the table of points, what is derived of variables,
//! and the generated input: what no stored run of a program shows. Each call is run here with ample memory, and stands under its name and
//! with its signature. No call is defined here.
#![tactic(auto)]

#[cfg(test)]
mod base;
#[cfg(test)]
mod derive;
#[cfg(test)]
mod generated;
#[cfg(test)]
mod lines;
#[cfg(test)]
mod outside;
#[cfg(test)]
mod points;
#[cfg(test)]
mod reading;
#[cfg(test)]
mod traces;
