//! Tests of the public calls that write the texts of a report and read them back: what no stored run of a program shows. Each call is run
//! here with ample memory, and stands under its name and with its signature. No call is defined here.
#![tactic(auto)]

#[cfg(test)]
mod claims;
#[cfg(test)]
mod lines;
