use css_model::{Number, Token, TokenType};
use port_core::Text;
use std::test::Fail;
use units64::Fixed6;

#[test]
fn a_dimension_is_copied(rt: HostRuntime) -> Result<(), Fail> {
    let number = Number {
        millionths: Fixed6::new(2_500_000),
        is_integer: false,
        is_signed: true,
    };
    let token = Token {
        token_type: TokenType::Dimension(number, Text::new(rt.alloc(), "em")?),
        start: 3,
        end: 9,
        spelling: Text::new(rt.alloc(), "+2.5em")?,
    };
    let copy = token.copy(rt.alloc())?;
    assert_eq!(rt; (copy.start, copy.end), (3, 9));
    assert_eq!(rt; copy.spelling.as_str(), "+2.5em");
    assert_eq!(rt; copy.number(), Some(number));
    assert_eq!(rt; copy.is_id(), false);
    Ok(())
}

#[test]
fn a_hash_is_copied(rt: HostRuntime) -> Result<(), Fail> {
    let token = Token {
        token_type: TokenType::Hash {
            name: Text::new(rt.alloc(), "a")?,
            is_id: true,
        },
        start: 0,
        end: 2,
        spelling: Text::new(rt.alloc(), "#a")?,
    };
    let copy = token.copy(rt.alloc())?;
    assert_eq!(rt; copy.number(), None);
    assert_eq!(rt; copy.is_id(), true);
    match &copy.token_type {
        TokenType::Hash { name, .. } => assert_eq!(rt; name.as_str(), "a"),
        _ => assert!(rt; false, "not a hash"),
    }
    Ok(())
}
