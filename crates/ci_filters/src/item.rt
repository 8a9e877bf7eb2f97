ghost use Rattle.std.specs.Prelude.{◌≡◌, ◌≤◌};
ghost use Rattle.ci_filters.specs.Contents.{held_bytes};

use crate::Content;
use ci_base::PropNo;
use std::marker::Model;

/// A chunk before it has its number: of which property it is, and what it holds. A text that is a
/// value has at most 65,536 bytes.
#[derive(Drop)]
pub struct Item {
    property: PropNo,
    content: Content,
}

impl Model for Item {
    ghost use Rattle.std.specs.Prelude.{◌≤◌};
    ghost use Rattle.ci_filters.specs.Contents.{Item as Part, held_bytes};

    ghost Value = { Part };

    ghost view = { λ i. record { property = i.property; content = i.content } };

    ghost invariant = { λ i. held_bytes i.content ≤ 65536 };
}

impl Item {
    pub fn new(property: PropNo, content: Content) -> Item
        requires { held_bytes content ≤ 65536 }
        ensures { result ≡ record { property = property; content = content } }
    {
        Item { property, content }
    }

    pub fn into_parts(self) -> (PropNo, Content)
        ensures property { result.0 ≡ self.property }
        ensures content { result.1 ≡ self.content }
        ensures short { held_bytes self.content ≤ 65536 }
    {
        let Item { property, content } = self;
        (property, content)
    }
}
