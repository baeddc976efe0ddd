/// The answer of a calculation whose result has more than 30 digits, or that divides by zero.
#[derive(Clone, Copy, Debug, PartialEq, Eq)]
pub struct SizeError;
