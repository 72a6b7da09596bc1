// Singles: IEEE 754's reciprocal square root, worked by the recurrence and correctly rounded.
#![tactic(auto)]

pub mod answer;
pub mod decode;
pub mod decoded;
pub mod marks;
pub mod mode;
pub mod positive;
pub mod rsqrt;
pub mod special;
