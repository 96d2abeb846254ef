//! Rows of pages with values of their last element: a document and sheets with `|` between, and then
//! properties with their computed values.

/// Several rules of the cascade at once.
pub(crate) const EXAMPLES: &str =
    r#"["h1",{"style":"color:RED;border:thin solid;width:10%"}] => width:%10000000 margin-top:1372 border-top-width:64 border-left-color:currentcolor font-size:2048 color:#ff0000ff font-weight:700
["div",["p"]]|div{color:red!important;font-size:20px}p{margin:2em;margin-top:revert}#x{color:blue} => margin-top:1280 margin-left:2560 color:#ff0000ff"#;

/// Which of two declarations is stronger (CSS Cascade 4, section 6.1).
pub(crate) const ORDERS: &str = r#"["div",["p"]]|*{margin-top:1px} => margin-top:64
["div",["p"]]|p{color:red!important}p{color:blue} => color:#ff0000ff
["div",["p"]]|p{color:red!important;color:blue} => color:#ff0000ff
["div",["p",{"style":"color:blue"}]]|p{color:red!important} => color:#ff0000ff
["div",["p",{"id":"x","style":"color:blue"}]]|#x{color:red} => color:#0000ffff
["div",["p",{"id":"x","style":"color:blue!important"}]]|#x{color:red!important} => color:#0000ffff
["div",["p",{"id":"x","class":"a b"}]]|#x{color:red}p.a.b{color:blue} => color:#ff0000ff
["div",["p",{"class":"a"}]]|.a{color:red}div p{color:blue} => color:#ff0000ff
["div",["p"]]|div p{color:red}p{color:blue} => color:#ff0000ff
["div",["p",{"id":"x","class":"a"}]]|p,#x{color:red}.a{color:blue} => color:#ff0000ff
["div",["p",{"class":"a"}]]|.a{color:red}|p{color:blue} => color:#ff0000ff
["div",["p"]]|p{color:red}|p{color:blue} => color:#0000ffff
["div",["p"]]|p{color:red}p{color:blue} => color:#0000ffff
["div",["p"]]|p{color:red;color:blue} => color:#0000ffff
["div",["p"]]|p{margin-left:1px;margin:2px} => margin-left:128
["div",["p"]]|p{margin:2px;margin-left:1px} => margin-left:64
["div",["p"]]|p{color:red;color:none} => color:#ff0000ff
["div",["p"]]|p{color:red}p,,{color:blue} => color:#ff0000ff"#;

/// CSS-wide keywords (CSS Cascade 4, section 7.3), and what is without a declaration (sections 7.1 and
/// 7.2).
pub(crate) const KEYWORDS: &str =
    r#"["div",["p"]]|div{color:red;margin-left:1px;opacity:.5} => color:#ff0000ff margin-left:0 opacity:1000000
["div",["p"]]|div{color:red;margin-left:1px}p{color:inherit;margin-left:inherit} => color:#ff0000ff margin-left:64
["div",["p"]]|div{color:red;margin-left:1px}p{color:initial;margin-left:initial} => color:#000000ff margin-left:0
["div",["p"]]|div{color:red;margin-left:1px}p{color:unset;margin-left:unset;margin-top:unset} => color:#ff0000ff margin-left:0 margin-top:0
["div",["p"]]|div{color:red;margin-left:1px}p{color:revert;margin-left:revert;margin-top:revert} => color:#ff0000ff margin-left:0 margin-top:1024
["div",["h2",{"style":"font-weight:revert"}]]|*{font-weight:100!important} => font-weight:100
["div",["h2",{"style":"font-weight:revert"}]]|*{font-weight:100} => font-weight:700
["div",["p"]]|div{color:red}p{color:currentcolor;border:1px solid currentcolor} => color:#ff0000ff border-top-color:currentcolor
["p"]|p{color:inherit;margin-top:inherit;font-size:unset;color:currentcolor} => color:#000000ff margin-top:0 font-size:1024
["span"] => display:block
["button"] => display:block
["title"] => display:none
["div",["span"]] => display:inline
["div",["button"]] => display:inline-block"#;

/// Lengths in `em` and `rem` (CSS Values 4, section 6.1), and borders (CSS Backgrounds 3, section 3.3).
pub(crate) const LENGTHS: &str =
    r#"["html"]|html{font-size:2em;margin-left:1em;padding-left:1rem} => font-size:2048 margin-left:2048 padding-left:2048
["html"]|html{font-size:2rem;margin-left:1vw} => font-size:2048 margin-left:512
["html",["p"]]|html{font-size:20px}p{font-size:1.5em;margin-left:1em;padding-left:1rem} => font-size:1920 margin-left:1920 padding-left:1280
["html",["div",["p"]]]|html{font-size:20px}div{font-size:10px}p{font-size:.5rem;margin-left:2em} => font-size:640 margin-left:1280
["html",["p"]]|html{font-size:20px}p{font-size:50%;line-height:200%} => font-size:640 line-height:1280
["div",["p"]]|p{border:2px hidden} => border-left-width:0 border-left-style:hidden
["div",["p"]]|p{border-left-width:3px} => border-left-width:0
["div",["p"]]|p{border-left-style:solid} => border-left-width:192
["div",["p"]]|div{border-left:2px solid}p{border-left:inherit} => border-left-width:128
["div",["p"]]|div{border-left-width:2px}p{border-left-width:inherit;border-left-style:solid} => border-left-width:0"#;

/// Values with `var()` (CSS Custom Properties 1, sections 2 and 3).
pub(crate) const REFERENCES: &str =
    r#"["div",{"style":"--a:var(--b);--b:var(--a);width:var(--a);height:var(--c,5px)"}] => width:auto height:320
["div",{"style":"--w: 8px ;width:calc(1px + 2*var(--w));height:max(1em, min(50px, 2vw))"}] => width:1088 height:1024
["div",{"style":"--s:1px 2px;margin:var(--s) 3px;width:1px;width:var(--s)"}] => margin-top:64 margin-right:128 margin-bottom:192 margin-left:128 width:auto
["div",["p"]]|div{--a:1px;width:3px}p{--a:var(--b,2px);width:var(--a);height:var(--z,inherit)} => width:128 height:auto
["div",["p"]]|div{--a:1px}p{--a:inherit;width:var(--a);--b:initial;height:var(--b,3px)} => width:64 height:192
["div",["p"]]|div{color:red}p{color:blue;color:var(--z,unset);margin-top:var(--z,revert)} => color:#ff0000ff margin-top:1024
["div",["p"]]|div{width:1px}p{width:2px;all:var(--z,inherit)} => width:64 display:block
["div",{"style":"width:1px;width:var(a);height:1px;height:var(--a) );max-width:var(--a,1px 2px)"}] => width:64 height:auto max-width:none
["div",["p"]]|p{--a:1px!important}p{--a:2px}#x{--a:3px}p{width:var(--a);HEIGHT:VAR(--A,4px)} => width:64 height:256"#;

/// Rules in `@media` blocks, on a viewport of 800 by 600 pixels (CSS Conditional 3, section 2; Media
/// Queries 4, section 2).
pub(crate) const MEDIA: &str = r#"["div"]|@media not (foo){div{height:1px}} => height:auto
["div"]|@media (foo) or (width > 1px){div{height:1px}} => height:64
["div"]|@media screen{div{height:1px}} => height:64
["div"]|@media print{div{height:1px}} => height:auto
["div"]|@media print, (orientation: landscape){div{height:1px}} => height:64
["div"]|@media and{div{height:1px}} => height:auto
["div"]|@media (a){div{height:1px}} => height:auto
["div"]|@media (width > 1px and (a){div{height:1px}} => height:auto
["div"]|@media (width:800px){@media (height<600px){div{height:1px}}div{width:1px}} => height:auto width:64
["div"]|@media (min-width:800px){div{height:1px}}@media (width>50em){div{height:2px}} => height:64
["div"]|@media{div{height:1px}} => height:64
["div"]|@media (width = 100cqw) and (height = 100cqh){div{height:1px}} => height:64
["div"]|div{font-size:32px}@media (width = 50em){div{height:1px}} => height:64 font-size:2048
["div"]|@media screen{@media (width > 1px){div{height:1px}}} => height:64
["div"]|@media screen{@media print{div{height:1px}}} => height:auto
["div"]|@media print{@media screen{div{height:1px}}} => height:auto
["div"]|@media screen{@media print{@media all{div{height:1px}}div{width:1px}}div{margin-top:1px}}div{margin-left:1px} => height:auto width:auto margin-top:64 margin-left:64
["div"]|@media screen{div{height:1px}}@media print{div{height:2px}} => height:64
["div"]|@media screen{div{height:1px}}|@media print{div{height:2px}} => height:64
["div"]|@media screen{div{height:1px}}div{height:2px} => height:128
["div"]|@media print{div{height:1px!important}}div{height:2px} => height:128
["div"]|@media screen{*{height:1px}}div{height:2px} => height:128
["div",["p"]]|@media screen{div{color:red}}@media print{p{color:blue}} => color:#ff0000ff
["p"]|@media print{p{margin-top:1px}} => margin-top:1024"#;
