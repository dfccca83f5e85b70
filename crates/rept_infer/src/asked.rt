//! Which runs of bytes were asked for already.

/// How many first bytes are kept.
const KEPT: usize = 1024;

/// No first byte, which is a multiple of 16.
const NONE: u32 = 1;

/// The first bytes of the 32 that were asked for last, by the number of 16 bytes. No promise rests
/// on it, for what isn't asked for tells nothing untrue.
#[derive(Drop)]
pub struct AskedWindows {
    firsts: [u32; KEPT],
}

impl AskedWindows {
    /// Nothing was asked for.
    pub fn new() -> AskedWindows {
        AskedWindows {
            firsts: [NONE; KEPT],
        }
    }

    /// The first of 32 bytes, unless it is kept; from here on it is.
    pub fn fresh(&mut self, window: Option<u32>) -> Option<u32> {
        match window {
            None => None,
            Some(first) => {
                let place = (first / 16 % 1024) as usize;
                if self.firsts[place] == first {
                    return None;
                }
                self.firsts[place] = first;
                Some(first)
            }
        }
    }
}
