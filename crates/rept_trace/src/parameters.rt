//! The parameters of encoders that differ from trace to trace.

ghost use Rattle.std.specs.Prelude.{◌≡◌};
ghost use Rattle.rept_trace.specs.Grammar.{untimed as untimed_parameters, timed as timed_parameters};

/// The parameters of an encoder that differ from trace to trace (Efficient Trace for RISC-V 2.0,
/// the discovery parameters `time_width_p`, `context_width_p` and `iaddress_lsb_p`). A width of 0
/// says that the field isn't sent, as `notime_p` and `nocontext_p` do.
#[derive(Clone, Copy)]
pub struct Parameters {
    /// The bits of a time, at most 64.
    pub time_width: u32,
    /// The bits of a context, at most 32.
    pub context_width: u32,
    /// Whether code may be compressed: of an address the lowest bit alone isn't sent, and else the
    /// lowest two.
    pub halves: bool,
}

/// The parameters of a trace of one stream: neither times nor contexts.
pub fn untimed(halves: bool) -> Parameters
    ensures { result ≡ untimed_parameters halves }
{
    Parameters {
        time_width: 0,
        context_width: 0,
        halves,
    }
}

/// The parameters of a trace of several streams: times of 64 bits and contexts of 32.
pub fn timed(halves: bool) -> Parameters
    ensures { result ≡ timed_parameters halves }
{
    Parameters {
        time_width: 64,
        context_width: 32,
        halves,
    }
}
