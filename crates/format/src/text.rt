//! A refusal as text.
ghost use Rattle.std.specs.Prelude.{Some};
ghost use Rattle.format.specs.RefusalText.{layer_text, refusal_lines};

use crate::fault::{Layer, Refusal};
use std::fmt;
use std::fmt::Display;

impl Display for Layer {
    ghost output = { λ x. Some (layer_text x) };

    fn fmt<W: fmt::Write>(&self, f: &mut fmt::Formatter<W>) -> fmt::Result {
        match *self {
            Layer::Message => write!(f, "message"),
            Layer::Section(number) => write!(f, "section {number}"),
            Layer::String => write!(f, "string"),
            Layer::Charts => write!(f, "charts"),
            Layer::Packer => write!(f, "packer"),
        }
    }
}

impl Display for Refusal {
    ghost output = { λ x. Some (refusal_lines x) };

    fn fmt<W: fmt::Write>(&self, f: &mut fmt::Formatter<W>) -> fmt::Result {
        let number = self.number;
        let layer = self.layer;
        let place = self.place;
        let fields = self.fields;
        let cells = self.cells;
        write!(
            f,
            "refused={number}\nlayer={layer}\nplace={place}\nfield={fields}\ncells={cells}\n"
        )
    }
}
