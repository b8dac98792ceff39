// Tests of scans: the ends of landmarks in images, the refusals of every call, and orders.
#![tactic(auto)]

#[cfg(test)]
mod calls;
#[cfg(test)]
mod dice;
#[cfg(test)]
mod far;
#[cfg(test)]
mod orders;
#[cfg(test)]
mod picks;
#[cfg(test)]
mod random;
#[cfg(test)]
mod refusals;
#[cfg(test)]
mod samples;
#[cfg(test)]
mod spending;
