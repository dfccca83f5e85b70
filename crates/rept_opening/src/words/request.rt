//! What can be asked for.

/// The names of the files of a crash: executable, core file and instruction trace.
#[derive(Clone, Copy, Debug)]
pub struct FileNames<'a> {
    pub exe: &'a str,
    pub core: &'a str,
    pub trace: &'a str,
}

/// The names of the files of a crash whose core file lists the files of the program: core file and
/// instruction trace.
#[derive(Clone, Copy, Debug)]
pub struct CoreNames<'a> {
    pub core: &'a str,
    pub trace: &'a str,
}

/// The abstract domain in which the values of registers are followed along the path.
#[derive(Clone, Copy, Debug)]
pub enum Domain {
    /// `open`: ranges.
    Ranges,
    /// `bits`: ranges, and the bits that are known of the values in them.
    KnownBits,
    /// `infer`: those of `bits`, and what follows beyond the report by further rules.
    Inferred,
}

/// What the words ask for.
#[derive(Clone, Copy, Debug)]
pub enum Request<'a> {
    /// `open EXE CORE TRACE [FROM]`, or `bits` or `infer` with the same words: `from` is the number
    /// of the packet to begin from.
    Open {
        domain: Domain,
        names: FileNames<'a>,
        from: Option<u32>,
    },
    /// `maps CORE TRACE [FROM]`, in the domain of `open`, or `infer maps CORE TRACE [FROM]`: the
    /// executable and shared objects are those that the core file lists.
    Maps {
        domain: Domain,
        names: CoreNames<'a>,
        from: Option<u32>,
    },
    /// `self SEED STEPS`: a made run of 1 to 20000 steps.
    Made {
        seed: u32,
        steps: u32,
    },
}
