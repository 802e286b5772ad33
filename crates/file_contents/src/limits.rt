/// How much a job may read.
#[derive(Clone, Copy)]
pub struct Limits {
    /// How many files are used.
    pub files: u32,
    /// How many bytes they have in all.
    pub bytes: u32,
}

/// The limits of every job.
pub const LIMITS: Limits = Limits {
    files: 1_048_576,
    bytes: 1_073_741_824,
};
