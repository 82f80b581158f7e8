// For tests only, as `trial` is: whole records into lent words, at the places of `blocks_in`.

#![tactic(auto)]

pub mod writing;
