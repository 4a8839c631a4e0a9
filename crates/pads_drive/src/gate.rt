/// What a worker passes before it reads a record. No contract speaks of it: it can't change a row. By a
/// gate a test learns which workers run at the same time.
pub trait Gate {
    /// Called with the number of the record that is read next.
    fn pass(&self, record_no: u64);
}

/// A gate that is always open.
#[derive(Clone, Copy, Debug)]
pub struct NoGate;

impl Gate for NoGate {
    fn pass(&self, _record_no: u64) {}
}
