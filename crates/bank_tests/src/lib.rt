// Tests of banks, holds, controls and spans, as a caller uses them.
#![tactic(auto)]

#[cfg(test)]
mod late_give;
#[cfg(test)]
mod modes;
#[cfg(test)]
mod refusals;
