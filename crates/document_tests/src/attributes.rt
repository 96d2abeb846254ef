use dom_arena::Attrs;
use port_core::NoMemory;

#[test]
fn keeps_names_in_the_order_of_code_points(rt: HostRuntime) -> Result<(), NoMemory> {
    let alloc = rt.alloc();
    let mut attributes = Attrs::new(alloc);
    for name in ["id", "größe", "\u{10000}", "idle", "a", "\u{ffff}", "i"] {
        attributes.set(alloc, name, "old")?;
        attributes.set(alloc, name, name)?;
    }
    attributes.drop("a");
    attributes.drop("absent");
    let names = ["größe", "i", "id", "idle", "\u{ffff}", "\u{10000}"];
    assert_eq!(rt; attributes.as_slice().len(), names.len());
    for i in 0..names.len() {
        let (name, value) = &attributes.as_slice()[i];
        assert_eq!(rt; name.as_str(), names[i]);
        assert_eq!(rt; value.as_str(), names[i]);
    }
    assert!(rt; attributes.get("a").is_none());
    Ok(())
}
