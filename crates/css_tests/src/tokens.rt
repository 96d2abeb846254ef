//! Rows of texts with their tokens (CSS Syntax 3, section 4.3).
use css_tokens::{Bracket, Number, TokenType, tokenize};
use std::alloc::{AllocError, Global};
use std::process::Abort;
use std::test::Fail;

/// Spells a number: its millionths, and whether it is whole and has a sign.
fn spell_number(alloc: Global, n: Number) -> Result<String, AllocError> {
    let whole = if n.is_integer { " whole" } else { "" };
    let signed = if n.is_signed { " signed" } else { "" };
    format!(in alloc; "{}{whole}{signed}", n.millionths.get())
}

/// Spells the class and the value of a token.
fn spell_type(alloc: Global, token_type: &TokenType) -> Result<String, AllocError> {
    match token_type {
        TokenType::Ident(name) => format!(in alloc; "ident {}", name.as_str()),
        TokenType::Function(name) => format!(in alloc; "function {}", name.as_str()),
        TokenType::AtKeyword(name) => format!(in alloc; "at {}", name.as_str()),
        TokenType::Hash { name, is_id: true } => format!(in alloc; "id {}", name.as_str()),
        TokenType::Hash { name, is_id: false } => format!(in alloc; "hash {}", name.as_str()),
        TokenType::String(value) => format!(in alloc; "string {}", value.as_str()),
        TokenType::BadString => String::from_str(alloc, "bad string"),
        TokenType::Url(value) => format!(in alloc; "url {}", value.as_str()),
        TokenType::BadUrl => String::from_str(alloc, "bad url"),
        TokenType::Delim(c) => format!(in alloc; "delim {c}"),
        TokenType::Number(n) => format!(in alloc; "number {}", spell_number(alloc, *n)?),
        TokenType::Percentage(n) => format!(in alloc; "percentage {}", spell_number(alloc, *n)?),
        TokenType::Dimension(n, unit) => {
            format!(in alloc; "dimension {} {}", unit.as_str(), spell_number(alloc, *n)?)
        }
        TokenType::Whitespace => String::from_str(alloc, "white"),
        TokenType::Cdo => String::from_str(alloc, "cdo"),
        TokenType::Cdc => String::from_str(alloc, "cdc"),
        TokenType::Colon => String::from_str(alloc, "colon"),
        TokenType::Semicolon => String::from_str(alloc, "semicolon"),
        TokenType::Comma => String::from_str(alloc, "comma"),
        TokenType::Opening(bracket) => format!(in alloc; "open {}", spell_bracket(*bracket)),
        TokenType::Closing(bracket) => format!(in alloc; "close {}", spell_bracket(*bracket)),
    }
}

fn spell_bracket(bracket: Bracket) -> &'static str {
    match bracket {
        Bracket::Round => "round",
        Bracket::Square => "square",
        Bracket::Curly => "curly",
    }
}

/// Spells the tokens of a text, each with its place.
fn spell_tokens(alloc: Global, text: &str) -> Result<String, AllocError> {
    let tokens = tokenize(alloc, text)?;
    let mut spelled = String::new(alloc);
    for token in tokens.as_slice() {
        if !spelled.is_empty() {
            spelled.push_str(" | ")?;
        }
        let spelled_type = spell_type(alloc, &token.token_type)?;
        spelled.push_str(spelled_type.as_str())?;
        let place = format!(in alloc; " @{}-{}", token.start, token.end)?;
        spelled.push_str(place.as_str())?;
    }
    Ok(spelled)
}

/// A row with its control pictures replaced by the control characters that they show.
fn with_controls(alloc: Global, row: &str) -> Result<String, AllocError> {
    let mut text = String::new(alloc);
    for c in row.chars() {
        match c {
            '\u{2400}' => text.push('\0')?,
            '\u{2401}' => text.push('\u{1}')?,
            '\u{2409}' => text.push('\t')?,
            '\u{240a}' => text.push('\n')?,
            '\u{240c}' => text.push('\u{c}')?,
            '\u{240d}' => text.push('\r')?,
            '\u{2421}' => text.push('\u{7f}')?,
            '\u{2422}' => text.push('\u{80}')?,
            '\u{2425}' => text.push('\u{10ffff}')?,
            _ => text.push(c)?,
        }
    }
    Ok(text)
}

/// Checks a row: a text, ` => ` and its tokens.
fn check_row(alloc: Global, rt: &impl Abort, row: &str) -> Result<(), Fail> {
    let Some((text, want)) = row.split_once(" => ") else {
        panic!(rt; "no tokens in {row}");
    };
    let text = with_controls(alloc, text)?;
    let want = with_controls(alloc, want)?;
    let spelled = spell_tokens(alloc, text.as_str())?;
    assert_eq!(rt; spelled.as_str(), want.as_str(), "at {row}");
    Ok(())
}

/// Checks rows, one a line. Control characters are written as control pictures, U+0080 as `␢` and
/// U+10FFFF as `␥`.
fn check(alloc: Global, rt: &impl Abort, rows: &str) -> Result<(), Fail> {
    for row in rows.lines() {
        check_row(alloc, rt, row)?;
    }
    Ok(())
}

/// Escapes (sections 4.3.7 and 4.3.8).
const ESCAPES: &str = r#"\41 b => ident Ab @0-5
\0000412 => ident A2 @0-8
\110000 \d800 \0 x => ident ���x @0-18
\10ffff => ident ␥ @0-7
\g\) => ident g) @0-4
a\ => ident a� @0-2
\ => ident � @0-1
\␊ => delim \ @0-1 | white @1-2
-\30 => ident -0 @0-4
-\␊ => delim - @0-1 | delim \ @1-2 | white @2-3
\75rl(a) => url a @0-8
-\ => ident -� @0-2
#\ => id � @0-2"#;

#[test]
fn escapes(rt: HostRuntime) -> Result<(), Fail> {
    check(rt.alloc(), &rt, ESCAPES)
}

/// Names, hashes, at-keywords and single code points (sections 4.3.1, 4.3.4 and 4.3.9).
const NAMES: &str = r#"a_é-1 => ident a_é-1 @0-5
-- => ident -- @0-2
--x => ident --x @0-3
-->x => cdc @0-3 | ident x @3-4
<!-- => cdo @0-4
<!- => delim < @0-1 | delim ! @1-2 | delim - @2-3
␡␢ => delim ␡ @0-1 | ident ␢ @1-2
a(b => function a @0-2 | ident b @2-3
#a => id a @0-2
#-a => id -a @0-3
#1a => hash 1a @0-3
#- => hash - @0-2
#( => delim # @0-1 | open round @1-2
@media => at media @0-6
@--x => at --x @0-4
@- => delim @ @0-1 | delim - @1-2
@1 => delim @ @0-1 | number 1000000 whole @1-2
*:;,[]{}) => delim * @0-1 | colon @1-2 | semicolon @2-3 | comma @3-4 | open square @4-5 | close square @5-6 | open curly @6-7 | close curly @7-8 | close round @8-9"#;

#[test]
fn names(rt: HostRuntime) -> Result<(), Fail> {
    check(rt.alloc(), &rt, NAMES)
}

/// Numbers, percentages and dimensions (sections 4.3.3 and 4.3.12).
const NUMBERS: &str = r#"+.5e-3px => dimension px 500 signed @0-8
1e => dimension e 1000000 whole @0-2
1e+ => dimension e 1000000 whole @0-2 | delim + @2-3
1e+2 => number 100000000 @0-4
1e-x => dimension e-x 1000000 whole @0-4
1e3e4 => dimension e4 1000000000 @0-5
1. => number 1000000 whole @0-1 | delim . @1-2
.5.5 => number 500000 @0-2 | number 500000 @2-4
12% => percentage 12000000 whole @0-3
2--x => dimension --x 2000000 whole @0-4
2- => number 2000000 whole @0-1 | delim - @1-2
u+1 => ident u @0-1 | number 1000000 whole signed @1-3
+-1 => delim + @0-1 | number -1000000 whole signed @1-3
+. => delim + @0-1 | delim . @1-2
-0.0000019 => number -1 signed @0-10
5e-7 => number 0 @0-4
50e-7 => number 5 @0-5
123456789012e-5 => number 1234567890120 @0-15
999999999.9999999 => number 999999999999999 @0-17
1000000000.5 => number 1000000000000000 @0-12
1E400 => number 1000000000000000 @0-5
-1e99999999999999999999999999999999999999999 => number -1000000000000000 signed @0-44
1e-99999999999999999999999999999999999999999 => number 0 @0-44
0.0e99999999999999999999999999999999999999999 => number 0 @0-45
0000000000000000000000000000000000000000000007 => number 7000000 whole @0-46"#;

#[test]
fn numbers(rt: HostRuntime) -> Result<(), Fail> {
    check(rt.alloc(), &rt, NUMBERS)
}

/// Strings and urls (sections 4.3.5 and 4.3.6).
const STRINGS_AND_URLS: &str = r#"'a"b' => string a"b @0-5
"a => string a @0-2
"a\ => string a @0-3
"a\␊b" => string ab @0-6
"\22 " => string " @0-6
"a␊b" => bad string @0-2 | white @2-3 | ident b @3-4 | string  @4-5
URL( a ) => url a @0-8
url(a => url a @0-5
url( => url  @0-4
url(a\)b) => url a)b @0-9
url(a\ => url a� @0-6
url("a") => function url @0-4 | string a @4-7 | close round @7-8
url( 'a') => function url @0-4 | white @4-5 | string a @5-8 | close round @8-9
url(a b) => bad url @0-8
url(a(b)c => bad url @0-8 | ident c @8-9
url(a"\)b)c => bad url @0-10 | ident c @10-11
url(a\␊) => bad url @0-8
url(␁ => bad url @0-5
url(␡) => bad url @0-6"#;

#[test]
fn strings_and_urls(rt: HostRuntime) -> Result<(), Fail> {
    check(rt.alloc(), &rt, STRINGS_AND_URLS)
}

/// Preprocessing and comments (sections 3.3 and 4.3.2).
const PREPROCESSING_AND_COMMENTS: &str = r#"a␀b => ident a�b @0-3
a␍␊␌␍␍b => ident a @0-1 | white @1-5 | ident b @5-6
␉ ␊ => white @0-3
a/**/b => ident a @0-1 | ident b @5-6
a/* / * */ => ident a @0-1
/ * => delim / @0-1 | white @1-2 | delim * @2-3"#;

#[test]
fn preprocessing_and_comments(rt: HostRuntime) -> Result<(), Fail> {
    check(rt.alloc(), &rt, PREPROCESSING_AND_COMMENTS)
}

#[test]
fn no_tokens(rt: HostRuntime) -> Result<(), Fail> {
    for text in ["", "/*/"] {
        let spelled = spell_tokens(rt.alloc(), text)?;
        assert_eq!(rt; spelled.as_str(), "", "at {text}");
    }
    Ok(())
}

#[test]
fn spellings(rt: HostRuntime) -> Result<(), Fail> {
    let tokens = tokenize(rt.alloc(), "\\41\r\n/*x*/url( a\u{c})1E2px\"a")?;
    let wants = ["\\41\n", "url( a\n)", "1E2px", "\"a"];
    assert_eq!(rt; tokens.len(), 4);
    for (token, want) in tokens.as_slice().iter().zip(wants.iter()) {
        assert_eq!(rt; token.spelling.as_str(), *want);
    }
    Ok(())
}
