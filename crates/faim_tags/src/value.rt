// One tag as a value.
use crate::ShortBytes;
use faim_base::{Items, TagNo};
use std::marker::Model;

/// A list of star elements, each without its star.
pub type Stars = Items<ShortBytes>;

/// A tag of the format. `fixed` holds its fixed elements, joined; `stars` its star elements, each without its star;
/// `closed` tells that the last star element has its star. Its elements are always those of its number.
#[derive(Debug, Drop)]
pub struct TagValue {
    pub no: TagNo,
    pub fixed: ShortBytes,
    pub stars: Stars,
    pub closed: bool,
}

impl Model for TagValue {
    ghost use Rattle.faim_tags.specs.Spelling.{Tag, IsTag};

    ghost Value = { Tag };

    ghost view = { λ v. record { no = v.no; fixed = v.fixed; stars = v.stars; closed = v.closed } };

    ghost invariant = { λ v. IsTag (record { no = v.no; fixed = v.fixed; stars = v.stars; closed = v.closed }) };
}
