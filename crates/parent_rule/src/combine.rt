//! The two ways to combine.
/// How the numbers of four pixels are combined into one.
#[derive(Clone, Copy, Debug, PartialEq, Eq, Hash)]
pub enum Combine {
    /// The mean, rounded half up.
    Mean,
    /// The lower median.
    Median,
}
