ghost use Rattle.std.specs.Prelude.{◌≡◌};

use own_base::SessionNo;

/// How a call came through a gate. The worker goes on in both cases.
#[derive(Clone, Copy, Debug, PartialEq, Eq, Hash)]
pub enum Gone {
    /// The gate let the call pass.
    Passed,
    /// The gate delayed the call for as long as it may, and gave up.
    Late,
}

/// What a worker passes before each call and tells after it, so that a test can delay calls.
pub trait Gate {
    /// Asked before a session's call of that number.
    fn before(&self, session: SessionNo, call: u32) -> Gone;

    /// Tells that the call was answered.
    fn after(&self, session: SessionNo, call: u32);
}

/// The gate that delays nobody.
#[derive(Clone, Copy, Debug, PartialEq, Eq, Hash)]
pub struct NowGate;

impl Gate for NowGate {
    fn before(&self, _session: SessionNo, _call: u32) -> Gone
        ensures { result ≡ Gone.Passed }
    {
        Gone::Passed
    }

    fn after(&self, _session: SessionNo, _call: u32) {}
}
