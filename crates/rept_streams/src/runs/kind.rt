//! Of what kind a trace is.

ghost use Rattle.std.specs.Prelude.{◌≡◌};
ghost use Rattle.rept_streams.specs.Runs.Kind.{is_several};

/// Whether the bytes of a trace begin as those of several streams do, with `RTR2`.
pub fn is_several(trace: &[u8]) -> bool
    ensures { result ≡ is_several trace.now }
{
    trace.starts_with(b"RTR2")
}
