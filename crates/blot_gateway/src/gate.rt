//! What is called round the submits of wires that are served at once.

/// Called round each submit, with the wire's place among those that are served, from 0.
pub trait Gate {
    /// A command is about to be submitted.
    fn before(&self, place: usize);

    /// It was answered.
    fn after(&self, place: usize);
}

/// A gate that holds nobody.
#[derive(Clone, Copy, Debug, Default)]
pub struct OpenGate;

impl Gate for OpenGate {
    fn before(&self, _: usize) {}

    fn after(&self, _: usize) {}
}
