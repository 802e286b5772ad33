/// What a worker passes on its way to a supertype occurrence, so that a test can hold it there.
///
/// Nothing is claimed of a gate.
pub trait Gate: Sync {
    fn at(&self, occurrence: u32);
}

/// A gate that holds no one.
#[derive(Clone, Copy)]
pub struct NoGate;

impl Gate for NoGate {
    fn at(&self, _occurrence: u32) {}
}
