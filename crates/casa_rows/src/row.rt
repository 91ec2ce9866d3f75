//! A row.

ghost use Rattle.std.specs.Prelude.{◌≡◌};

/// A row of a text: the line on which it begins, and its fields.
#[derive(Debug, Drop)]
pub struct Row {
    pub line: u64,
    pub fields: Vec<Vec<u8>>,
}

impl Row {
    ghost use Rattle.casa_rows.specs.Fields.{text_in};

    /// The text in this column, counted from 0; where the row has no such column, no characters.
    pub fn text(&self, column: usize) -> &[u8]
        ensures { result.now ≡ text_in column self.now }
    {
        match self.fields.get(column) {
            Some(text) => text.as_slice(),
            None => &[],
        }
    }
}
