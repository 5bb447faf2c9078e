//! Whether the comments of two trees are the same, and stand at the same places.

ghost use Rattle.std.specs.Prelude.{◌≡◌, ◌↔◌, IsTrue};

use comment_places::Seat;
use tree_core::Comment;

fn same_comment(a: &Comment, b: &Comment) -> bool
    ensures { IsTrue result ↔ (a.now ≡ b.now) }
{
    a.block == b.block && a.text.get() == b.text.get()
}

// Whether the gaps are the same one of the same node.
fn same_gap(a: &Seat, b: &Seat) -> bool
    ensures { IsTrue result ↔ ((a.now.address ≡ b.now.address) × (a.now.gap ≡ b.now.gap)) }
{
    a.gap == b.gap && a.address.steps() == b.address.steps()
}

fn same_seat(a: &Seat, b: &Seat) -> bool
    ensures { IsTrue result ↔ (a.now ≡ b.now) }
{
    same_gap(a, b) && same_comment(&a.comment, &b.comment)
}

/// Whether the comments and their places are the same, in the same order.
pub fn same_seats(a: &[Seat], b: &[Seat]) -> bool
    ensures { IsTrue result ↔ (a.now ≡ b.now) }
{
    if a.len() != b.len() {
        return false;
    }
    for at in 0..a.len() {
        if !same_seat(&a[at], &b[at]) {
            return false;
        }
    }
    true
}
