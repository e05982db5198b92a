// The entries of `host` under their names in C, which palikudyom.h declares: each calls the entry of its name, and promises the same.
#![tactic(auto)]

mod bound;
mod demand;
mod edit;
mod file;
mod least_supply;
mod partition;
mod run;
mod summary;
mod trace;
mod verdict;
