use number_form::words::Words;

/// The registers of a job under way, after some digits.
#[derive(Clone, Copy, Drop, PartialEq, Eq, Debug)]
pub struct Registers {
    /// The operand's width K.
    pub k: u32,
    /// The result's places Q.
    pub q: u32,
    /// The factor x of both operand terms.
    pub factor: u32,
    /// The bits of the result still to make, from Q down to 0.
    pub place: u32,
    /// The residual W times 2^(K+Q), in the number form.
    pub residual: Words,
    /// The product P times 2^(K+Q), in the number form.
    pub product: Words,
    /// The partial result.
    pub partial: Partial,
}

/// A partial result as on-the-fly conversion keeps it, in plain numbers: S, and S less one unit of the last digit's place.
#[derive(Clone, Copy, Drop, PartialEq, Eq, Debug)]
pub struct Partial {
    /// S times 2^Q.
    pub s: u32,
    /// S - r^-j times 2^Q.
    pub below: u32,
}

/// A digit with the estimates that it was chosen from.
#[derive(Clone, Copy, Drop, PartialEq, Eq, Debug)]
pub struct Choice {
    /// The estimate of the shifted residual.
    pub residual: i64,
    /// The estimate of the product.
    pub product: i64,
    pub digit: i64,
}

/// What a job comes to: f is the largest number with X (f / 2^Q)^2 at most 1.
#[derive(Clone, Copy, Drop, PartialEq, Eq, Debug)]
pub struct Outcome {
    pub f: u32,
    /// Whether f / 2^Q is the reciprocal root itself; f is there in both cases, so no `Option` says it.
    pub exact: bool,
}

/// What a digit q adds, by its operand term x 2^place: -2q times the product and -q^2 times the term to the residual, q times the term
/// to the product.
#[derive(Clone, Copy, Drop)]
pub(crate) struct Terms {
    pub(crate) multiple: i64,
    pub(crate) square: i64,
    pub(crate) once: i64,
}
