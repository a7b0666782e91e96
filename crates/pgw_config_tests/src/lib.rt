//! A test of the configuration's setters. The cases of `pgw_config_cases` test all else.
#![tactic(auto)]

#[cfg(test)]
mod setters;
