//! A gate that holds nothing.
use line_base::Gate;

/// Lets every request pass.
pub struct NoGate;

impl Gate for NoGate {
    fn begin(&self, _worker: u32) {}

    fn done(&self, _worker: u32) {}
}
