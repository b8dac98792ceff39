// Tests of finders on examples.
#![tactic(auto)]

#[cfg(test)]
mod both;
#[cfg(test)]
mod links;
#[cfg(test)]
mod many;
#[cfg(test)]
mod pairs;
#[cfg(test)]
mod shifts;
