//! Texts and lists: each call once, where it succeeds.
use crate::{Seq, Text};
use std::test::Fail;

#[test]
fn keeps_texts_and_lists(rt: HostRuntime) -> Result<(), Fail> {
    let text = Text::new(rt.alloc(), "größe")?;
    let owned = text.copy(rt.alloc())?;
    assert_eq!(rt; text.as_str(), "größe");
    assert!(rt; text.same(&owned));
    assert!(rt; text.is("größe"));
    assert!(rt; !text.is("größ"));

    let mut list = Seq::new(rt.alloc());
    list.push(text)?;
    assert_eq!(rt; list.len(), 1);
    assert!(rt; list.get(1).is_none());
    Ok(())
}
