//! The sheet of the user agent.

/// The style sheet of the user agent: which elements are blocks or are not shown, and the margins and
/// fonts of HTML's elements (HTML, section 15.3).
pub const USER_AGENT_SHEET: &str = "\
html, body, div, p, section, article, aside, header, footer, main, nav,
h1, h2, h3, h4, h5, h6, ul, ol, li, dl, dt, dd, blockquote, figure,
figcaption, address, form, hr, pre { display: block }
head, title, meta, link, style, script, template, base { display: none }
button { display: inline-block }
body { margin: 8px }
p, ul, ol, dl { margin-top: 1em; margin-bottom: 1em }
blockquote, figure { margin: 1em 40px }
ul, ol { padding-left: 40px }
dd { margin-left: 40px }
h1 { font-size: 2em; margin-top: .67em; margin-bottom: .67em }
h2 { font-size: 1.5em; margin-top: .83em; margin-bottom: .83em }
h3 { font-size: 1.17em; margin-top: 1em; margin-bottom: 1em }
h1, h2, h3, h4, h5, h6, b, strong { font-weight: bold }
i, em { font-style: italic }";
