//! Rows of media query lists with the viewports on which they match (Media Queries 4, sections 2 to 4).
ghost use Rattle.page_model.specs.declared.limits.TheConstants.{MAX_SIDE};
ghost use Rattle.std.specs.Prelude.{◌≤◌};

use css_tokens::{TokenFault, components, tokenize};
use media_conditions::{Viewport, media_matches, read_media};
use port_core::NoMemory;
use std::alloc::Global;
use std::process::Abort;
use std::test::Fail;

/// Lists, and whether they match on 800 by 600: lists, types, the grammar, and Unknown.
const LISTS: &str = r#"not (foo) => no
(foo) or (width > 1px) => yes
screen => yes
print => no
print, (orientation: landscape) => yes
and => no
(a) => no
(width > 1px and (a) => no
 => yes
/**/  => yes
, => no
,screen => yes
print, => no
all => yes
SCREEN => yes
projection => no
only screen => yes
only print => no
not screen => no
not print => yes
not projection => yes
not all => no
only not screen => no
not only screen => no
not => no
only => no
layer => no
not layer => no
or => no
only and => no
screen print => no
screen and => no
screen and (width > 1px) => yes
screen and (width < 1px) => no
print and (width > 1px) => no
not screen and (width < 1px) => yes
not screen and (width > 1px) => no
not print and (width < 1px) => yes
not screen and (foo) => no
not print and (foo) => yes
screen and (foo) => no
screen and not (foo) => no
screen and not (width < 1px) => yes
screen and not (width < 1px) and (height > 1px) => no
screen and (width > 1px) and (height > 1px) => yes
screen and (width > 1px) or (height > 1px) => no
screen and ((width > 1px) or (height < 1px)) => yes
screen or (width > 1px) => no
screen, (foo) and => yes
(width > 1px) and (height > 1px) or (foo) => no
not(width < 1px) => no
not (width < 1px) => yes
not (width < 1px) and (height > 1px) => no
(}) or (width) => yes
example, all, (max-width 1px) => yes
(example, all,), screen => yes
all and(color), screen => yes
&test, screen => yes
or and (width), screen => yes
(max-weight: 3px) => no
(min-orientation: portrait) => no"#;

/// Features, and on which widths and heights around an edge they hold: from below, at it and above it.
const EDGES: &str = r#"(width: 400px) => no yes no
(width = 400px) => no yes no
(400px = width) => no yes no
(min-width: 400px) => no yes yes
(max-width: 400px) => yes yes no
(width < 400px) => yes no no
(width <= 400px) => yes yes no
(width > 400px) => no no yes
(width >= 400px) => no yes yes
(400px < width) => no no yes
(400px <= width) => no yes yes
(400px > width) => yes no no
(400px >= width) => yes yes no
(400px <= width <= 400px) => no yes no
(399px < width < 401px) => no yes no
(401px > width >= 400px) => no yes no
(400px<width<=402px) => no no yes
(MIN-WIDTH : 400PX) => no yes yes
(min-width: 25em) => no yes yes
(min-width: 25rem) => no yes yes
(min-width: 300pt) => no yes yes
(height: 400px) => no yes no
(min-height: 400px) => no yes yes
(height > 400px) => no no yes
(max-height: 400px) => yes yes no"#;

/// Features, and whether they hold on 300 by 200, 200 by 200 and 200 by 300.
const SHAPES: &str = r#"(orientation) => yes yes yes
(orientation: landscape) => yes no no
(orientation: portrait) => no yes yes
(orientation: PORTRAIT) => no yes yes
(orientation: square) => no no no
(orientation = portrait) => no no no
(aspect-ratio) => yes yes yes
(aspect-ratio: 3/2) => yes no no
(aspect-ratio: 3 / 2) => yes no no
(aspect-ratio: 1) => no yes no
(aspect-ratio: 1/1) => no yes no
(min-aspect-ratio: 1) => yes yes no
(max-aspect-ratio: 1) => no yes yes
(aspect-ratio > 2/3) => yes yes no
(1/1 < aspect-ratio) => yes no no
(2/3 <= aspect-ratio < 3/2) => no yes yes
(aspect-ratio > 1/0) => no no no
(aspect-ratio < 1/0) => yes yes yes
(aspect-ratio: -1/1) => no no no
(aspect-ratio: 3/2/1) => no no no
(width: 100vw) => yes yes yes
(height: 100cqh) => yes yes yes
(width) => yes yes yes
(width > -1px) => yes yes yes
(width > 0) => yes yes yes
(width > 1) => no no no
(width > 1%) => no no no
(width > 1foo) => no no no
(width: 300.000001px) => no no no
(min-width > 1px) => no no no
(width < = 400px) => no no no
(1px < width > 1px) => no no no
(1px = width = 1px) => no no no
(1px < width < 400px < 500px) => no no no
(width width) => no no no
(1px < 2px) => no no no"#;

/// Whether the list that a text is matches on a viewport.
fn matches(alloc: Global, text: &str, width: u64, height: u64) -> Result<bool, TokenFault>
    requires width { width ≤ MAX_SIDE }
    requires height { height ≤ MAX_SIDE }
{
    let components = components(alloc, &tokenize(alloc, text)?)?;
    let list = read_media(alloc, &components)?;
    Ok(media_matches(&list, Viewport { width, height }))
}

fn named(matches: bool) -> &'static str {
    if matches { "yes" } else { "no" }
}

fn split<'a>(rt: &impl Abort, row: &'a str) -> (&'a str, &'a str) {
    let Some((text, want)) = row.split_once(" => ") else {
        panic!(rt; "nothing to compare in {row}");
    };
    (text, want)
}

#[test]
fn lists_match(rt: HostRuntime) -> Result<(), Fail> {
    for row in LISTS.lines() {
        let (text, want) = split(&rt, row);
        assert_eq!(rt;
            named(matches(rt.alloc(), text, 800, 600)?),
            want,
            "at {row}"
        );
    }
    Ok(())
}

#[test]
fn features_have_edges(rt: HostRuntime) -> Result<(), Fail> {
    for row in EDGES.lines() {
        let (text, want) = split(&rt, row);
        let below = named(matches(rt.alloc(), text, 399, 399)?);
        let at = named(matches(rt.alloc(), text, 400, 400)?);
        let above = named(matches(rt.alloc(), text, 401, 401)?);
        let mut wants = want.split(' ');
        assert_eq!(rt; Some(below), wants.next(), "below, at {row}");
        assert_eq!(rt; Some(at), wants.next(), "at {row}");
        assert_eq!(rt; Some(above), wants.next(), "above, at {row}");
    }
    Ok(())
}

#[test]
fn features_judge_shapes(rt: HostRuntime) -> Result<(), Fail> {
    for row in SHAPES.lines() {
        let (text, want) = split(&rt, row);
        let wide = named(matches(rt.alloc(), text, 300, 200)?);
        let square = named(matches(rt.alloc(), text, 200, 200)?);
        let high = named(matches(rt.alloc(), text, 200, 300)?);
        let mut wants = want.split(' ');
        assert_eq!(rt; Some(wide), wants.next(), "wide, at {row}");
        assert_eq!(rt; Some(square), wants.next(), "square, at {row}");
        assert_eq!(rt; Some(high), wants.next(), "high, at {row}");
    }
    Ok(())
}

#[test]
fn nothing_is_zero(rt: HostRuntime) -> Result<(), Fail> {
    let alloc = rt.alloc();
    assert!(rt; !matches(alloc, "(width)", 0, 5)?);
    assert!(rt; matches(alloc, "(height)", 0, 5)?);
    assert!(rt; !matches(alloc, "(aspect-ratio)", 0, 5)?);
    assert!(rt; matches(alloc, "(aspect-ratio)", 5, 0)?);
    assert!(rt; matches(alloc, "(orientation)", 0, 0)?);
    assert!(rt; matches(alloc, "(width: 0)", 0, 5)?);
    Ok(())
}

/// A text so many times, and then another.
fn repeated(alloc: Global, text: &str, count: usize, end: &str) -> Result<String, NoMemory> {
    let mut all = String::new(alloc);
    for _ in 0..count {
        all.push_str(text)?;
    }
    all.push_str(end)?;
    Ok(all)
}

#[test]
fn lists_nest_and_are_long(rt: HostRuntime) -> Result<(), Fail> {
    let alloc = rt.alloc();
    let queries = repeated(alloc, "print,", 9_999, "screen")?;
    assert!(rt; matches(alloc, queries.as_str(), 800, 600)?);
    let parts = repeated(alloc, "(width: 800px) and ", 9_999, "(height: 600px)")?;
    assert!(rt; matches(alloc, parts.as_str(), 800, 600)?);
    assert!(rt; !matches(alloc, parts.as_str(), 800, 601)?);
    let deep = repeated(alloc, "(", 64, "width")?;
    assert!(rt; matches(alloc, deep.as_str(), 800, 600)?);
    Ok(())
}
