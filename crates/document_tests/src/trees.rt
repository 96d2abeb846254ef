use dom_arena::Tree;
use jsonml_reader::{TreeFault, read_tree};
use serde_json::Value;
use std::alloc::{AllocError, Global};
use std::test::Fail;

/// Spells a tree: a text in quotes, an element as its name, its attributes in brackets and its children in braces.
fn spell(tree: &Tree, spelled: &mut String) -> Result<(), AllocError> {
    match tree {
        Tree::Chars(text) => {
            spelled.push('"')?;
            spelled.push_str(text.as_str())?;
            spelled.push('"')
        }
        Tree::Elem(name, attributes, children) => {
            spelled.push_str(name.as_str())?;
            for attribute in attributes.as_slice() {
                spelled.push('[')?;
                spelled.push_str(attribute.0.as_str())?;
                spelled.push('=')?;
                spelled.push_str(attribute.1.as_str())?;
                spelled.push(']')?;
            }
            spelled.push('{')?;
            for child in children.as_slice() {
                spell(child, spelled)?;
            }
            spelled.push('}')
        }
    }
}

/// What a JSON text's value is read as.
fn read(alloc: Global, text: &str) -> Result<Result<Tree, TreeFault>, Fail> {
    let value = Value::from_str(alloc, text)?;
    Ok(read_tree(alloc, &value))
}

#[test]
fn values_that_are_trees(rt: HostRuntime) -> Result<(), Fail> {
    for (text, want) in [
        (r#""""#, r#""""#),
        (r#""Gr\u00fc\u00dfe \ud83d\ude00""#, r#""Grüße 😀""#),
        (r#"["p"]"#, "p{}"),
        (r#"["p", {}]"#, "p{}"),
        (r#"["p", "a", "b"]"#, r#"p{"a""b"}"#),
        (r#"["p", {"class": "wide"}]"#, "p[class=wide]{}"),
        (
            r#"["p", {"id": "7", "class": ""}, "x", ["b", "y"], "z"]"#,
            r#"p[class=][id=7]{"x"b{"y"}"z"}"#,
        ),
        (
            r#"["ul", ["li", {"k": "v"}, ["i", ["b"]]], ["li"]]"#,
            "ul{li[k=v]{i{b{}}}li{}}",
        ),
    ] {
        let tree = read(rt.alloc(), text)??;
        let mut spelled = String::new(rt.alloc());
        spell(&tree, &mut spelled)?;
        assert_eq!(rt; spelled.as_str(), want, "at {text}");
    }
    Ok(())
}

#[test]
fn values_that_are_no_trees(rt: HostRuntime) -> Result<(), Fail> {
    for text in [
        "7",
        "null",
        "true",
        "{}",
        "[]",
        r#"["a", null]"#,
        r#"["a", {"b": 1}]"#,
        r#"["a", ["b"], {}]"#,
        r#"["a", {}, {}]"#,
        r#"["a", ["b", ["c", 7]]]"#,
        r#"[["a"]]"#,
    ] {
        let refused = matches!(read(rt.alloc(), text)?, Err(TreeFault::Shape));
        assert!(rt; refused, "at {text}");
    }
    Ok(())
}

#[test]
fn faults_are_told(rt: HostRuntime) -> Result<(), Fail> {
    for (fault, want) in [
        (TreeFault::NoMemory, "out of memory"),
        (TreeFault::Shape, "the value stands for no tree"),
    ] {
        let told = format!(in rt.alloc(); "{fault}")?;
        assert_eq!(rt; told.as_str(), want);
    }
    Ok(())
}
