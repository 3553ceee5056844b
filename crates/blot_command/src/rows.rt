//! Rows in their order.
ghost use Rattle.std.specs.Prelude.{◌≡◌};
ghost use Rattle.std.specs.Cmp.Lexicographic.{pointwise, lists_equiv, lists_per};

use std::marker::Model;

/// The rows of a report, in their order. A contract sees them as a list.
#[derive(Debug, Drop)]
pub struct Rows<T> {
    rows: Vec<T>,
}

impl<T> Model for Rows<T> {
    ghost use Rattle.std.specs.Prelude.{List};

    ghost Value = { List T };

    ghost view = { λ rows. rows.rows.items };
}

impl<T> Rows<T> {
    /// The rows of a vector. No memory is taken.
    pub fn new(rows: Vec<T>) -> Rows<T>
        ensures { result ≡ rows.items }
    {
        Rows { rows }
    }

    /// The rows, from the first to the last.
    pub fn as_slice(&self) -> &[T]
        ensures { result.now ≡ self.now }
    {
        self.rows.as_slice()
    }
}

impl<T: PartialEq> PartialEq for Rows<T> {
    ghost eq = { pointwise T.eq };

    ghost laws = { lists_per T.laws };

    fn eq(&self, other: &Rows<T>) -> bool {
        self.as_slice() == other.as_slice()
    }
}

impl<T: Eq> Eq for Rows<T> {
    ghost laws = { lists_equiv T.Eq.laws };
}
