//! Shorthands, by their names (CSS Cascade 4, section 3; the modules of each).
ghost use Rattle.css_tokens.specs.Words.{is_ascii_word};
ghost use Rattle.prop_table.specs.inner.ShorthandViews.{shorthand_view};
ghost use Rattle.std.specs.List.{list_all};
ghost use Rattle.std.specs.Map.{lookup};
ghost use Rattle.std.specs.Prelude.{◌≡◌, IsTrue, map, option_map};
ghost use Rattle.std.specs.Str.{str_eq_ignore_ascii_case};
ghost use Rattle.value_model.specs.Shorthands as shorthands;

use port_core::Text;
use value_model::Prop;
use value_parts::find_word;

/// The three properties of the border of one side.
#[derive(Clone, Copy, Debug, PartialEq, Eq)]
pub(crate) struct Border {
    /// Its width.
    pub width: Prop,
    /// Its style.
    pub style: Prop,
    /// Its colour.
    pub color: Prop,
}

/// The properties of top, right, bottom and left.
#[derive(Clone, Copy, Debug, PartialEq, Eq)]
pub(crate) struct Sides {
    /// That of top.
    pub top: Prop,
    /// That of right.
    pub right: Prop,
    /// That of bottom.
    pub bottom: Prop,
    /// That of left.
    pub left: Prop,
}

/// A shorthand.
#[derive(Clone, Copy, Debug)]
pub(crate) enum Shorthand {
    /// One to four values, for top, right, bottom and left.
    FourSides(Sides),
    /// One or two values, for the start and the end of an axis.
    TwoSides(Prop, Prop),
    /// A width, a style and a colour in any order, the same for each of these sides.
    Borders(&'static [Border]),
    /// `background`.
    Background,
    /// `container`.
    Container,
    /// `all`.
    All,
}

/// The shorthand of this name, in any case.
pub(crate) fn shorthand_of_name(name: &Text) -> Option<Shorthand>
    ensures { option_map shorthand_view result ≡ shorthands.shorthand_of_name name.now }
{
    find_shorthand(name, &SHORTHANDS)
}

fn find_shorthand(name: &Text, table: &[(&str, Shorthand)]) -> Option<Shorthand>
    requires { IsTrue (list_all (λ row. is_ascii_word row.0.now) table.now) }
    ensures { option_map shorthand_view result ≡ lookup (str_eq_ignore_ascii_case name.now)
        (map (λ row. (row.0.now, shorthand_view row.1)) table.now) }
{
    find_word(name, table)
}

const MARGIN: Shorthand = Shorthand::FourSides(Sides {
    top: Prop::MarginTop,
    right: Prop::MarginRight,
    bottom: Prop::MarginBottom,
    left: Prop::MarginLeft,
});

const PADDING: Shorthand = Shorthand::FourSides(Sides {
    top: Prop::PaddingTop,
    right: Prop::PaddingRight,
    bottom: Prop::PaddingBottom,
    left: Prop::PaddingLeft,
});

const BORDER_WIDTH: Shorthand = Shorthand::FourSides(Sides {
    top: Prop::BorderTopWidth,
    right: Prop::BorderRightWidth,
    bottom: Prop::BorderBottomWidth,
    left: Prop::BorderLeftWidth,
});

const BORDER_STYLE: Shorthand = Shorthand::FourSides(Sides {
    top: Prop::BorderTopStyle,
    right: Prop::BorderRightStyle,
    bottom: Prop::BorderBottomStyle,
    left: Prop::BorderLeftStyle,
});

const BORDER_COLOR: Shorthand = Shorthand::FourSides(Sides {
    top: Prop::BorderTopColor,
    right: Prop::BorderRightColor,
    bottom: Prop::BorderBottomColor,
    left: Prop::BorderLeftColor,
});

const TOP: Border = Border {
    width: Prop::BorderTopWidth,
    style: Prop::BorderTopStyle,
    color: Prop::BorderTopColor,
};

const RIGHT: Border = Border {
    width: Prop::BorderRightWidth,
    style: Prop::BorderRightStyle,
    color: Prop::BorderRightColor,
};

const BOTTOM: Border = Border {
    width: Prop::BorderBottomWidth,
    style: Prop::BorderBottomStyle,
    color: Prop::BorderBottomColor,
};

const LEFT: Border = Border {
    width: Prop::BorderLeftWidth,
    style: Prop::BorderLeftStyle,
    color: Prop::BorderLeftColor,
};

/// The shorthands, by their names.
const SHORTHANDS: [(&str, Shorthand); 17] = [
    ("margin", MARGIN),
    ("padding", PADDING),
    ("border-width", BORDER_WIDTH),
    ("border-style", BORDER_STYLE),
    ("border-color", BORDER_COLOR),
    ("border", Shorthand::Borders(&[TOP, RIGHT, BOTTOM, LEFT])),
    ("border-top", Shorthand::Borders(&[TOP])),
    ("border-right", Shorthand::Borders(&[RIGHT])),
    ("border-bottom", Shorthand::Borders(&[BOTTOM])),
    ("border-left", Shorthand::Borders(&[LEFT])),
    ("background", Shorthand::Background),
    ("container", Shorthand::Container),
    (
        "margin-inline",
        Shorthand::TwoSides(Prop::MarginLeft, Prop::MarginRight),
    ),
    (
        "margin-block",
        Shorthand::TwoSides(Prop::MarginTop, Prop::MarginBottom),
    ),
    (
        "padding-inline",
        Shorthand::TwoSides(Prop::PaddingLeft, Prop::PaddingRight),
    ),
    (
        "padding-block",
        Shorthand::TwoSides(Prop::PaddingTop, Prop::PaddingBottom),
    ),
    ("all", Shorthand::All),
];
