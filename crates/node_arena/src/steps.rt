//! A count of the links that are written.

ghost use Rattle.std.specs.Prelude.{◌≡◌, ◌+◌, ◌<◌};

use std::marker::Model;
use std::sync::ledger::{Blank, Book, Ledger, Share};

/// How many links were written. It takes no bytes, and only `tick` changes it: contracts alone see
/// the number. A caller that wants no count makes one at `Brand`.
#[derive(Drop)]
pub struct Steps<L: Ledger> {
    written: Book<L>,
    pen: Share<L>,
}

impl<L: Ledger> Model for Steps<L> {
    ghost use Rattle.std.specs.Prelude.{ℕ, ◌<◌};

    ghost Value = { ℕ };

    ghost view = { λ s. s.written.total };

    ghost invariant = { λ s. 0 < s.pen.parts };
}

impl<L: Ledger> Steps<L> {
    /// A count from 0. The blank has parts, all of which the count takes.
    pub fn new(blank: Blank) -> Steps<L>
        requires name { blank.name ≡ L.name }
        requires parts { blank.parts ≡ L.parts }
        requires some { 0 < blank.parts }
        ensures { result ≡ 0 }
    {
        let (written, pen) = blank.open::<L>();
        Steps { written, pen }
    }

    /// One more link.
    pub(crate) fn tick(&mut self)
        ensures { self.new ≡ self.old + 1 }
    {
        self.written.add(&mut self.pen, 1);
    }
}
