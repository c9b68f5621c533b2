//! Tests of the public calls below the engine: numbers, scans, the table of the grammar's rows, what samples have in common, what rows free,
//! and which candidates a filter keeps: what no stored run of a program shows. Each call is run here with ample memory, and stands under
//! its name and with its signature. No call is defined here.
#![tactic(auto)]

#[cfg(test)]
mod arith;
#[cfg(test)]
mod classes;
#[cfg(test)]
mod constants;
#[cfg(test)]
mod filters;
#[cfg(test)]
mod lanes;
#[cfg(test)]
mod presence;
#[cfg(test)]
mod suppress;
#[cfg(test)]
mod template;
