//! The words by which Graphviz draws what was found of a graph.
ghost use Rattle.std.specs.Prelude.{◌≡◌};
ghost use Rattle.owner_graph.specs.Drawing.{color_text, style_text, tie_text};

/// The color of a vertex (own): `white` where it is kept, `orange` where it is leaked in a knot that
/// something ties, and `lightgrey` where it is leaked otherwise.
pub fn color_word(is_kept: bool, is_tied: bool) -> &'static str
    ensures { result.now ≡ color_text is_kept is_tied }
{
    if is_kept {
        "white"
    } else if is_tied {
        "orange"
    } else {
        "lightgrey"
    }
}

/// How the line of a handle is drawn (own): `solid` for an owner, `bold` where it cuts its knot, and
/// `dashed` for a weak handle.
pub fn style_word(is_owner: bool, is_cut: bool) -> &'static str
    ensures { result.now ≡ style_text is_owner is_cut }
{
    if !is_owner {
        "dashed"
    } else if is_cut {
        "bold"
    } else {
        "solid"
    }
}

/// What follows the style of a handle's line (own): that it is red where it ties a knot, and else
/// nothing.
pub fn tie_word(is_tie: bool) -> &'static str
    ensures { result.now ≡ tie_text is_tie }
{
    if is_tie { ", color=red" } else { "" }
}
