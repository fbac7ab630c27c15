//! How vertices and edges of a step look.

use tg_plain::PlainText;

/// A colour. None of them says a thing alone.
#[derive(Clone, Copy)]
pub enum Colour {
    /// A subject reaches it.
    Black,
    /// No subject reaches it.
    Grey,
    /// It is why the line was denied.
    Red,
}

/// The line that something is drawn with.
#[derive(Clone, Copy)]
pub enum Stroke {
    /// It is there.
    Solid,
    /// An edge that lacks rights, or a subject that retired.
    Dashed,
    /// It isn't there, or no subject reaches it.
    Dotted,
}

/// How a vertex or an edge looks.
#[derive(Clone, Copy)]
pub struct Style {
    /// Its colour, and that of its text.
    pub colour: Colour,
    /// Its line.
    pub stroke: Stroke,
    /// Whether the line of the script speaks of it.
    pub is_bold: bool,
}

impl Style {
    /// The look of a vertex that a subject reaches, or of a vertex that no subject reaches.
    pub fn reached(reached: bool, is_bold: bool) -> Style {
        let (colour, stroke) = if reached {
            (Colour::Black, Stroke::Solid)
        } else {
            (Colour::Grey, Stroke::Dotted)
        };
        Style {
            colour,
            stroke,
            is_bold,
        }
    }

    /// Writes the attributes of the look, and the end of its line.
    pub fn write(self, text: &mut PlainText) {
        text.add("\" style=\"");
        if self.is_bold {
            text.add("bold,");
        }
        text.add(match self.stroke {
            Stroke::Solid => "solid\" ",
            Stroke::Dashed => "dashed\" ",
            Stroke::Dotted => "dotted\" ",
        });
        text.add(match self.colour {
            Colour::Black => "color=black fontcolor=black]\n",
            Colour::Grey => "color=grey40 fontcolor=grey40]\n",
            Colour::Red => "color=red3 fontcolor=red3]\n",
        });
    }
}
