// Tests of landmark lists, mostly as tables.
#![tactic(auto)]

#[cfg(test)]
mod lists;
#[cfg(test)]
mod records;
#[cfg(test)]
mod writing;
