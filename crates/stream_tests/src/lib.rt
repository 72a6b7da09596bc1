// Vector streams by their bytes: each refusal with its place, and the limits of input and output.
#![tactic(auto)]

#[cfg(test)]
mod limits;
#[cfg(test)]
mod streams;
