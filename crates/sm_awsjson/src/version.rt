// The versions of AWS JSON.

/// A version of AWS JSON. They differ in the content type, and in how an error's name is written.
#[derive(Debug, Clone, Copy, PartialEq, Eq, Drop)]
pub enum AwsVersion {
    /// 1.0.
    V10,
    /// 1.1.
    V11,
}
