ghost use Rattle.std.specs.Prelude.{◌≡◌, ◌++◌};
ghost use Rattle.casa_tape.specs.Lines.{journal_of, IsWholeEnd};

/// What stood in a file: its bytes, of which the whole lines take so many.
#[derive(Debug, Drop)]
pub struct Found {
    pub(crate) bytes: Vec<u8>,
    pub(crate) end: usize,
    ghost ends: { IsWholeEnd bytes.items end },
}

impl Found {
    ghost use Rattle.casa_tape.specs.Recovery.{bytes_found, lines_found};

    /// The text of the whole lines.
    pub fn lines(&self) -> &[u8]
        ensures { result.now ≡ journal_of (lines_found self.now) }
    {
        &self.bytes[..self.end]
    }

    /// What stands behind them, which `mend` cuts: what a crash left of a line, and all behind it.
    pub fn torn(&self) -> &[u8]
        ensures { journal_of (lines_found self.now) ++ result.now ≡ bytes_found self.now }
    {
        &self.bytes[self.end..]
    }
}
